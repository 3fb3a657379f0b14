// What a hit answers, and what is a hit.
use super::asked::{
    FIRST, FIRST_SECONDARY, Place, Told, byte, denied, done, goes, leaves, lent, place_0, place_1,
    unmatched,
};
use std::io;
use test_report::lent::Entry;
use test_report::line;

// The entry as it was loaded answers, and neither table nor cache is written; the table has no entry, so that what is done is done by the cache alone.
pub fn answers(rt: &impl Print) -> io::Result<()> {
    let told = done(0x12345ABC, 998, 8);
    let secondary = Place {
        first: FIRST_SECONDARY,
        ..place_0(0x12345192, 0xFFA, 1)
    };
    for (number, kind, place, told) in [
        // In place 0 and in place 1, for a load, a fetch, and a store where C is set. Source: request 7; R43, R46.
        (1132, 1, place_0(0x12345192, 0xFFA, 0), told),
        (1133, 0, place_0(0x12345192, 0xFFA, 0), told),
        (1134, 2, place_0(0x12345192, 0xFFA, 0), told),
        (1135, 2, place_1(0x12345192, 0xFFA, 0), told),
        // The group that its H names. Source: R46.
        (1136, 1, secondary, done(0x12345ABC, 25, 8)),
    ] {
        let asked = byte(kind, 0x00FFAABC);
        line(rt, number, leaves(asked, &lent(&[], &[place]), told))?;
    }
    Ok(())
}

// What a hit hides.
pub fn hidden(rt: &impl Print) -> io::Result<()> {
    let told = done(0x12345ABC, 998, 8);
    let asked = byte(1, 0x00FFAABC);
    let first = place_0(0x12345192, 0xFFA, 0);
    // Place 0 first where both hold the page. Source: request 7; R41.
    let both = lent(&[], &[first, place_1(0x6789A192, 0xFFA, 1)]);
    line(rt, 1137, leaves(asked, &both, told))?;
    // R clear in the cache is set nowhere. Source: R43.
    let unread = place_0(0x12345012, 0xFFA, 1);
    let unread = lent(&[Entry::of_page(0x12345012)], &[unread]);
    line(rt, 1138, leaves(asked, &unread, told))?;
    // A hit hides what the table has. Source: R45.
    let moved = lent(&[Entry::of_page(0x6789A192)], &[first]);
    line(rt, 1139, leaves(asked, &moved, told))
}

// V, VSID and page index are compared, each whole, and nothing else.
pub fn tests(rt: &impl Print) -> io::Result<()> {
    let told = done(0x12345ABC, 998, 8);
    let lost = unmatched(0x40000000);
    let named = |first, newer| Place {
        first,
        ..place_0(0x12345192, 0xFFA, newer)
    };
    let elsewhere = Place {
        at: 0,
        ..place_0(0x12345192, 0xFFA, 1)
    };
    for (number, place, told) in [
        // V 0; another VSID; page index 00010FFA and 0FBA in the third word. Source: R41.
        (1140, named(0x06380E03, 1), lost),
        (1141, named(0x86380E83, 1), lost),
        (1142, place_0(0x12345192, 0x10FFA, 1), lost),
        (1143, place_0(0x12345192, 0xFBA, 1), lost),
        // Another API and another fourth word still hit. Source: R41.
        (1144, named(0x86380E15, 7), told),
        // The page in another set than its own is not met. Source: R39.
        (1145, elsewhere, lost),
    ] {
        let asked = byte(1, 0x00FFAABC);
        line(rt, number, leaves(asked, &lent(&[], &[place]), told))?;
    }
    Ok(())
}

// Steps 5 and 6 by a hit.
pub fn faults(rt: &impl Print) -> io::Result<()> {
    let guarded = lent(&[], &[place_0(0x1234519A, 0xFFA, 1)]);
    let fetched = Told {
        result: 65,
        word: 0x10000000,
        record: [4, 0, 998, 8],
    };
    let readable = lent(&[], &[place_0(0x12345193, 0xFFA, 1)]);
    // A guarded page fetched; a read-only page stored to, C set. Source: R44, R46; document 01, steps 5 and 6.
    line(rt, 1146, leaves(byte(0, 0x00FFAABC), &guarded, fetched))?;
    line(rt, 1147, leaves(byte(2, 0x00FFAABC), &readable, denied(8)))
}

// A store that meets an entry with C clear is no hit.
pub fn stores(rt: &impl Print) -> io::Result<()> {
    let asked = byte(2, 0x00FFAABC);
    let lost = unmatched(0x42000000);
    let clear = place_0(0x12345112, 0xFFA, 1);
    // It goes to the table: no match there; C in place 1 does not count. Source: request 7; R42.
    line(rt, 1148, leaves(asked, &lent(&[], &[clear]), lost))?;
    let both = lent(&[], &[clear, place_1(0x12345192, 0xFFA, 0)]);
    line(rt, 1149, leaves(asked, &both, lost))?;
    let fifth = |second| [Entry::new(998, 5, FIRST, second)];
    // A store that protection forbids there shows the real entry number. Source: R44.
    let readable = lent(&fifth(0x12345113), &[place_0(0x12345113, 0xFFA, 1)]);
    line(rt, 1150, leaves(asked, &readable, denied(5)))?;
    // Where the table has it, C is set there and in the cache. Source: R48, R55.
    let before = lent(&fifth(0x12345112), &[clear]);
    let after = lent(&fifth(0x12345192), &[place_0(0x12345192, 0xFFA, 1)]);
    let told = done(0x12345ABC, 998, 5);
    line(rt, 1151, goes(asked, &before, told, &after))
}
