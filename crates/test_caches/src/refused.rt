// Refusals of accesses with a cache and of invalidate, and what they leave.
ghost use Rattle.std.specs.Prelude.{◌≤◌};

use super::asked::{FIRST, PLACE_0};
use std::io;
use test_report::answered::answer_refused;
use test_report::lent::{SDR1, SEGMENT, registers};
use test_report::line;

// A cache that holds page 0FFA, in the first 2,048 of 2,052 bytes; every other byte is 55.
fn lent_cache() -> [u8; 2052] {
    let mut cache = [0x55u8; 2052];
    let place = [FIRST, 0x12345192, 0xFFA, 1];
    words::write_words(&mut cache[PLACE_0..PLACE_0 + 16], &place);
    cache
}

// The lengths that an access is lent: of the register page, the table, the cache and the answer.
#[derive(Clone, Copy)]
struct Lengths {
    page: usize,
    table: usize,
    cache: usize,
    answer: usize,
}

// The number of a load of so many bytes at 00FFAABC with parts of these lengths; none where something lent is not as a refusal leaves it.
fn refused(mode: u32, length: u32, lengths: Lengths) -> Option<u32> {
    let page = registers::<132>(&[(0, SDR1), (1, SEGMENT)]);
    let mut table = [0u8; 65536];
    let mut cache = lent_cache();
    let mut answer = [0xAAu8; 52];
    let result = mmu::mmu_access_cached(
        &page[..lengths.page.min(132)],
        mode,
        1,
        0x00FFAABC,
        length,
        &mut table[..lengths.table.min(65536)],
        &mut cache[..lengths.cache.min(2052)],
        &mut answer[..lengths.answer.min(52)],
    );
    let kept = table == [0; 65536] && cache == lent_cache();
    (kept && answer_refused(&answer, result)).then_some(result)
}

// A length that is not right.
pub fn wrong_lengths(rt: &impl Print) -> io::Result<()> {
    for (number, page, table, cache, answer) in [
        // A cache of 0, 2,047, 2,049 and 2,052 bytes; a short register page; a short answer. Source: request 7; R37.
        (1152, 132, 65536, 0, 48),
        (1153, 132, 65536, 2047, 48),
        (1154, 132, 65536, 2049, 48),
        (1155, 132, 65536, 2052, 48),
        (1156, 131, 65536, 2048, 48),
        (1157, 132, 65536, 2048, 47),
    ] {
        let lengths = Lengths {
            page,
            table,
            cache,
            answer,
        };
        line(rt, number, refused(1, 1, lengths) == Some(11))?;
    }
    Ok(())
}

// Two rules broken, and the table's length though the page hits.
pub fn in_order(rt: &impl Print) -> io::Result<()> {
    for (number, mode, length, table, cache, refusal) in [
        // 11 before 6, 12 and 1; 6 before 12; 12 before 1; 1 though the page would hit. Source: R38.
        (1158, 8, 0, 65535, 2047, 11),
        (1159, 8, 0, 65535, 2048, 6),
        (1160, 1, 0, 65535, 2048, 12),
        (1161, 1, 1, 65535, 2048, 1),
        (1162, 1, 1, 0, 2048, 1),
    ] {
        let lengths = Lengths {
            page: 132,
            table,
            cache,
            answer: 48,
        };
        let good = refused(mode, length, lengths) == Some(refusal);
        line(rt, number, good)?;
    }
    Ok(())
}

// A cache in which every byte is 55, but the set that begins at this byte is zero.
fn zeroed(at: usize) -> [u8; 2048]
    requires { at ≤ 2016 }
{
    let mut cache = [0x55u8; 2048];
    cache[at..at + 32].fill(0);
    cache
}

// Whether an invalidate of this page index, lent so many bytes of a cache, answers this number and leaves this cache.
fn invalidate(index: u32, length: usize, res: u32, after: [u8; 2048]) -> bool {
    let mut cache = [0x55u8; 2048];
    let number = mmu::mmu_invalidate(index, &mut cache[..length.min(2048)]);
    number == res && cache == after
}

// Invalidate.
pub fn invalidates(rt: &impl Print) -> io::Result<()> {
    let left = [0x55u8; 2048];
    for (number, index, length, result, after) in [
        // Both places of the set, by the low six bits of the page index, and no other byte. Source: request 7; R54.
        (1163, 0xFFA, 2048, 0, zeroed(PLACE_0)),
        (1164, 0x3A, 2048, 0, zeroed(PLACE_0)),
        (1165, 0, 2048, 0, zeroed(0)),
        (1166, 0xFFFF, 2048, 0, zeroed(2016)),
        (1167, 0x20, 2048, 0, zeroed(1024)),
        // A page index past 65,535; a wrong length, before it. Source: R37, R38.
        (1168, 0x10000, 2048, 6, left),
        (1169, 0xFFFFFFFF, 2048, 6, left),
        (1170, 0x10000, 2047, 11, left),
        (1171, 0xFFA, 0, 11, left),
    ] {
        line(rt, number, invalidate(index, length, result, after))?;
    }
    Ok(())
}
