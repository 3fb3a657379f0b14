// What an access with a cache loads, and where.
use super::asked::{
    FIRST, FIRST_SECONDARY, PLACE_0, Place, Told, byte, denied, done, goes, leaves, lent, place_0,
    place_1, unmatched,
};
use std::io;
use test_report::asked::Asked;
use test_report::lent::Entry;
use test_report::line;

// Entries of the four pages, of which the first two are marked.
fn four(third: u32, fourth: u32) -> [Entry; 4] {
    [
        Entry::of_page(0x12345112),
        Entry::new(934, 0, FIRST, 0x22222112),
        Entry::new(870, 0, FIRST, third),
        Entry::new(806, 0, FIRST, fourth),
    ]
}

// A first load, by each kind.
pub fn first_loads(rt: &impl Print) -> io::Result<()> {
    let told = done(0x12345ABC, 998, 0);
    for (number, kind, second, marked) in [
        // The entry's words once marked, the page index and 1, in place 0. Source: request 7; R48, R50.
        (1109, 1, 0x12345012, 0x12345112),
        (1110, 2, 0x12345012, 0x12345192),
        (1111, 0, 0x12345012, 0x12345112),
        // Ignored bits and marks stand as in the table. Source: R48.
        (1112, 1, 0x12345E96, 0x12345F96),
    ] {
        let before = lent(&[Entry::of_page(second)], &[]);
        let after = lent(&[Entry::of_page(marked)], &[place_0(marked, 0xFFA, 1)]);
        let good = goes(byte(kind, 0x00FFAABC), &before, told, &after);
        line(rt, number, good)?;
    }
    // An entry in the secondary group is loaded with its H. Source: R48.
    let entry = Entry::new(25, 3, FIRST_SECONDARY, 0x12345112);
    let place = Place {
        first: FIRST_SECONDARY,
        ..place_0(0x12345112, 0xFFA, 1)
    };
    let (before, after) = (lent(&[entry], &[]), lent(&[entry], &[place]));
    let told = done(0x12345ABC, 25, 3);
    line(rt, 1113, goes(byte(1, 0x00FFAABC), &before, told, &after))
}

// Further pages of the same set.
pub fn replaced(rt: &impl Print) -> io::Result<()> {
    let start = four(0x33333012, 0x44444012);
    let read = four(0x33333112, 0x44444012);
    let both_read = four(0x33333112, 0x44444112);
    let first = [place_0(0x12345112, 0xFFA, 1)];
    let second = [place_0(0x12345112, 0xFFA, 0), place_1(0x22222112, 0xFBA, 1)];
    let third = [place_0(0x33333112, 0xF7A, 1), place_1(0x22222112, 0xFBA, 0)];
    let fourth = [place_0(0x33333112, 0xF7A, 0), place_1(0x44444112, 0xF3A, 1)];
    let held = [place_0(0x12345112, 0xFFA, 0)];
    let over = [place_0(0x22222112, 0xFBA, 1)];
    for (number, address, entries, places, told, left, loaded) in [
        // Places 0, 1, 0, 1: the older load is replaced, and the other place is not the newer any more. Source: request 7; R50, R51.
        (
            1114,
            0x00FBA000,
            start,
            &first[..],
            done(0x22222000, 934, 0),
            start,
            &second[..],
        ),
        (
            1115,
            0x00F7A000,
            start,
            &second[..],
            done(0x33333000, 870, 0),
            read,
            &third[..],
        ),
        (
            1116,
            0x00F3A000,
            read,
            &third[..],
            done(0x44444000, 806, 0),
            both_read,
            &fourth[..],
        ),
        // A place that is empty is not preferred: with neither fourth word 1 the load goes to place 0. Source: R50.
        (
            1117,
            0x00FBA000,
            start,
            &held[..],
            done(0x22222000, 934, 0),
            start,
            &over[..],
        ),
    ] {
        let (before, after) = (lent(&entries, places), lent(&left, loaded));
        line(rt, number, goes(byte(1, address), &before, told, &after))?;
    }
    Ok(())
}

// A store that meets C clear goes to the table and loads the page again.
pub fn reloaded(rt: &impl Print) -> io::Result<()> {
    for (number, before, after) in [
        // In the same place, as the newer load. Source: request 7, "a reload keeps its place"; R49, R55.
        (
            1118,
            [place_0(0x12345112, 0xFFA, 0), place_1(0x22222112, 0xFBA, 1)],
            [place_0(0x12345192, 0xFFA, 1), place_1(0x22222112, 0xFBA, 0)],
        ),
        (
            1119,
            [place_0(0x22222112, 0xFBA, 1), place_1(0x12345112, 0xFFA, 0)],
            [place_0(0x22222112, 0xFBA, 0), place_1(0x12345192, 0xFFA, 1)],
        ),
        // The page in both places: the first that holds it is loaded again. Source: R42, R49.
        (
            1120,
            [place_0(0x12345112, 0xFFA, 0), place_1(0x12345192, 0xFFA, 1)],
            [place_0(0x12345192, 0xFFA, 1), place_1(0x12345192, 0xFFA, 0)],
        ),
    ] {
        let before = lent(&[Entry::of_page(0x12345112)], &before);
        let after = lent(&[Entry::of_page(0x12345192)], &after);
        let told = done(0x12345000, 998, 0);
        let good = goes(byte(2, 0x00FFA000), &before, told, &after);
        line(rt, number, good)?;
    }
    Ok(())
}

// What is not loaded.
pub fn not_loaded(rt: &impl Print) -> io::Result<()> {
    let load = byte(1, 0x00FFA000);
    let store = byte(2, 0x00FFA000);
    let page = Entry::of_page(0x12345012);
    // No match, page protection, contradicting matches. Source: R47; document 01, steps 4 to 6.
    line(
        rt,
        1121,
        leaves(load, &lent(&[], &[]), unmatched(0x40000000)),
    )?;
    let readable = lent(&[Entry::of_page(0x12345013)], &[]);
    line(rt, 1122, leaves(store, &readable, denied(0)))?;
    let other = Entry::new(25, 0, FIRST_SECONDARY, 0x12346012);
    let refused = Told {
        result: 10,
        word: 0,
        record: [0; 4],
    };
    line(rt, 1123, leaves(load, &lent(&[page, other], &[]), refused))?;
    // Real mode. Source: R40, R47.
    let real = Asked::byte(0, 1, 0x00FFA000);
    let untranslated = Told {
        result: 0,
        word: 0x00FFA000,
        record: [0; 4],
    };
    line(rt, 1124, leaves(real, &lent(&[page], &[]), untranslated))
}

// Fourth words that are neither 0 nor 1.
pub fn garbage(rt: &impl Print) -> io::Result<()> {
    let in_place_0 = [place_0(0x22222112, 0xFBA, 1), place_1(0x44444112, 0xF3A, 0)];
    let in_place_1 = [place_0(0x12345112, 0xFFA, 0), place_1(0x22222112, 0xFBA, 1)];
    for (number, newer, other_newer, after) in [
        // 7 and 80000001 are not 1; what stood there in the other place becomes 0. Source: R50, R51.
        (1125, 7, 1, in_place_0),
        (1126, 1, 0x80000001, in_place_1),
        (1127, 0x80000001, 7, in_place_0),
    ] {
        let start = four(0x33333112, 0x44444112);
        let first = place_0(0x12345112, 0xFFA, newer);
        let other = place_1(0x44444112, 0xF3A, other_newer);
        let (before, after) = (lent(&start, &[first, other]), lent(&start, &after));
        let told = done(0x22222000, 934, 0);
        let good = goes(byte(1, 0x00FBA000), &before, told, &after);
        line(rt, number, good)?;
    }
    Ok(())
}

// Eight bytes at 00FFAFFD: three in page 0FFA, of set 58, and five in page 0FFB, of set 59.
pub fn two_pages(rt: &impl Print) -> io::Result<()> {
    let asked = Asked {
        length: 8,
        ..byte(1, 0x00FFAFFD)
    };
    let told = done(0x12345FFD, 998, 0);
    let hit = done(0x12345FFD, 998, 8);
    let page = Entry::of_page(0x12345012);
    let next = Entry::of_next_page(0x6789A022);
    let read = Entry::of_page(0x12345112);
    let next_read = Entry::of_next_page(0x6789A122);
    let left = place_0(0x12345112, 0xFFA, 1);
    let right = Place {
        at: PLACE_0 + 32,
        ..place_0(0x6789A122, 0xFFB, 1)
    };
    let whole = lent(&[read, next_read], &[left, right]);
    // Both loaded; only the second; only the first. Source: request 7; R47, R52.
    let neither = lent(&[page, next], &[]);
    line(rt, 1128, goes(asked, &neither, told, &whole))?;
    let first = lent(&[read, next], &[left]);
    line(rt, 1129, goes(asked, &first, hit, &whole))?;
    let second = lent(&[page, next_read], &[right]);
    line(rt, 1130, goes(asked, &second, told, &whole))?;
    // The second page has no match: neither is loaded or marked. Source: R47.
    let alone = lent(&[page], &[]);
    line(rt, 1131, leaves(asked, &alone, unmatched(0x40000000)))
}
