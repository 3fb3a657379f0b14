// A short page beside the same page widened by zero pairs, its data pairs at words 33 to 40: both answer alike, byte by byte.
use super::asked::{Long, Page, Short};
use std::io;
use test_report::asked::Asked;
use test_report::lent::{BAD_SDR1, SDR1, both_pages};
use test_report::line;

// Words of a set: SDR1, segment 15, the last instruction pair and the last data pair of a short page.
#[derive(Clone, Copy)]
struct Set {
    sdr1: u32,
    segment: u32,
    instruction: u32,
    data: u32,
}

impl Set {
    // The set as a page whose first and last data pair are at these words; the first is 80001FFE 10000002.
    fn page<const N: usize>(self, first: u8, last: u8) -> Page<N> {
        Page::new()
            .with(0, self.sdr1)
            .with(16, self.segment)
            .pair(23, self.instruction, 0x50000002)
            .pair(first, 0x80001FFE, 0x10000002)
            .pair(last, self.data, 0x20000001)
    }

    // As a short page.
    fn short(self) -> Short {
        self.page(25, 31)
    }

    // As a long page whose pairs 4 to 7 are zero.
    fn long(self) -> Long {
        self.page(33, 39)
    }
}

// A set that breaks no rule.
const GOOD: Set = Set {
    sdr1: SDR1,
    segment: 0x000C701C,
    instruction: 0xC0000003,
    data: 0xD0000003,
};

// Sets that break a rule, and each of them those of the sets after it that are named in it.
const BAD_SEGMENT: Set = Set {
    segment: 0x800C701C,
    ..GOOD
};

const SHARED: Set = Set {
    data: 0x80000002,
    ..BAD_SEGMENT
};

const BROKEN: Set = Set {
    instruction: 0x0000000A,
    ..SHARED
};

const BAD_FIRST: Set = Set {
    sdr1: BAD_SDR1,
    ..BROKEN
};

// A pair that is off and has bits 15 to 18.
const OFF: Set = Set {
    instruction: 0x0001E000,
    data: 0xFFFFFFFC,
    ..GOOD
};

// Checks.
pub fn checks(rt: &impl Print) -> io::Result<()> {
    // A short page and the same page widened have the same check: 0, 2, 3, 4, 5, and 0 where pairs that are off have bits 15 to 18. Source: request 5.
    for (number, set, refusal) in [
        (1075, GOOD, 0),
        (1076, BAD_FIRST, 2),
        (1077, BROKEN, 3),
        (1078, SHARED, 4),
        (1079, BAD_SEGMENT, 5),
        (1080, OFF, 0),
    ] {
        let checks = [set.short().check(), set.long().check()];
        line(rt, number, checks == [refusal; 2])?;
    }
    // Short page, one of bits 15 to 18 in a pair that is on: 3, and 2 where SDR1 breaks its rule. Source: request 5.
    let broken = GOOD.short().with(31, 0xD0002003);
    line(rt, 1081, broken.check() == 3)?;
    let broken = BAD_FIRST.short().with(31, 0xD0002003);
    line(rt, 1082, broken.check() == 2)
}

// Whether an access to four bytes gives the same number, answer and table on both pages, this result among them.
fn access_is(set: Set, asked: Asked, res: u32) -> bool {
    let asked = Asked { length: 4, ..asked };
    let mut table = both_pages(0x12345012, 0x6789A00A);
    let mut other_table = table;
    let mut answer = [0xAAu8; 48];
    let mut other_answer = answer;
    let number = asked.run(&set.short().0, &mut table, &mut answer);
    let other_number = asked.run(&set.long().0, &mut other_table, &mut other_answer);
    [number, other_number] == [res; 2] && answer == other_answer && table == other_table
}

// Accesses.
pub fn accesses(rt: &impl Print) -> io::Result<()> {
    for (number, mode, kind, address, result) in [
        // A short page and the same page widened: equal numbers, answers and tables of a fetch by instruction pair 3, loads by data pairs 0 and 3, a store to pair 3's PP 1. Source: request 5.
        (1083, 3, 0, 0xC0000010, 0),
        (1084, 3, 1, 0x8FFFFFF0, 0),
        (1085, 3, 1, 0xD001FFF0, 0),
        (1086, 3, 2, 0xD001FFF0, 64),
        // The same of a store by a page, one over a page edge, a guarded fetch, no match, real mode. Source: request 5.
        (1087, 3, 2, 0x00FFA010, 0),
        (1088, 3, 2, 0x00FFAFFE, 0),
        (1089, 3, 0, 0x00FFB010, 65),
        (1090, 7, 1, 0x00FFC010, 64),
        (1091, 0, 2, 0xFFFFFFFE, 0),
    ] {
        let asked = Asked::byte(mode, kind, address);
        line(rt, number, access_is(GOOD, asked, result))?;
    }
    Ok(())
}

// Refused accesses.
pub fn refusals(rt: &impl Print) -> io::Result<()> {
    // The same of refused accesses: 6, 2, 3, 4, 5. Source: request 5.
    for (number, set, mode, refusal) in [
        (1092, GOOD, 8, 6),
        (1093, BAD_FIRST, 3, 2),
        (1094, BROKEN, 3, 3),
        (1095, SHARED, 3, 4),
        (1096, BAD_SEGMENT, 3, 5),
    ] {
        let asked = Asked::byte(mode, 1, 0x00FFA010);
        line(rt, number, access_is(set, asked, refusal))?;
    }
    Ok(())
}

// The bytes of a short page as those of a long one whose pairs 4 to 7 are zero.
fn widened(short: [u8; 132]) -> [u8; 196] {
    let (front, data) = (&short[..100], &short[100..]);
    let mut long = [0u8; 196];
    long[..100].copy_from_slice(front);
    long[132..164].copy_from_slice(data);
    long
}

// Whether a word of the short page and the same word of the long one, by its own number there, are replaced alike.
fn set_is(number: u32, other: u32, word: u32, res: u32) -> bool {
    let (Page(mut short), Page(mut long)) = (GOOD.short(), GOOD.long());
    let got = mmu::mmu_set_register(&mut short, number, word);
    let other_got = mmu::mmu_set_register(&mut long, other, word);
    [got, other_got] == [res; 2]
        && [Page(short).check(), Page(long).check()] == [0; 2]
        && long == widened(short)
}

// Replaced words.
pub fn sets(rt: &impl Print) -> io::Result<()> {
    for (number, register, other, word, result) in [
        // Set register on a short page does what that word's number on the widened one does: SDR1, segment 15, instruction pair 3, data pairs 0 and 3 (25 and 33, 32 and 40); 2, 3, 4 and 5. Source: request 5.
        (1097, 0, 0, 0x12340000, 0),
        (1098, 16, 16, 0x70ABCDEF, 0),
        (1099, 24, 24, 0x60000000, 0),
        (1100, 25, 33, 0x90001FFE, 0),
        (1101, 32, 40, 0x30000003, 0),
        (1102, 0, 0, BAD_SDR1, 2),
        (1103, 25, 33, 0x0000000A, 3),
        (1104, 31, 39, 0x88000002, 4),
        (1105, 16, 16, 0x80000000, 5),
        // The same: the first data pair is put where an instruction pair is, and gets W; an instruction pair with W is refused 3. Source: request 5; rules 3.
        (1106, 25, 33, 0xC0000003, 0),
        (1107, 26, 34, 0x10000042, 0),
        (1108, 24, 24, 0x60000042, 3),
    ] {
        line(rt, number, set_is(register, other, word, result))?;
    }
    Ok(())
}
