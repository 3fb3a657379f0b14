// Readings that tempt, duplicate matches, ignored bits, the order of a search, and the modes.
use std::io;
use test_report::asked::Asked;
use test_report::called::{look, map, protect, unmap};
use test_report::lent::{Entry, SDR1, SEGMENT, VSID, registers, table_with};
use test_report::line;

// An address of the page of the cases.
const ADDRESS: u32 = 0x00FFA01B;

// An access without a match: a load's first three words, and those of an access that is done with WIMG 2.
const NO_MATCH: [u32; 3] = [64, 0x40000000, 0x300];

const DONE: [u32; 3] = [0, 0x1234501B, 2];

// A table with one entry.
fn with_one(group: usize, entry: usize, first: u32, second: u32) -> [u8; 65536] {
    table_with(&[Entry::new(group, entry, first, second)])
}

// A table with an entry of the page in its primary group.
fn with_page(second: u32) -> [u8; 65536] {
    table_with(&[Entry::of_page(second)])
}

// A table with two entries of the page, one at this place of its primary group and one at entry 0 of its secondary group, by their second words.
fn with_both(entry: usize, second: u32, other: u32) -> [u8; 65536] {
    table_with(&[
        Entry::new(998, entry, 0x86380E03, second),
        Entry::new(25, 0, 0x86380E43, other),
    ])
}

// An access by segment 0 to the byte at that address: whether it answers these words and leaves this table.
fn access(mode: u32, kind: u32, table: [u8; 65536], three: [u32; 3], after: [u8; 65536]) -> bool {
    let page = registers(&[(0, SDR1), (1, SEGMENT)]);
    let mut lent = table;
    Asked::byte(mode, kind, ADDRESS).answers_three(page, &mut lent, three, &after)
}

// A page whose one entry is in the secondary group.
pub fn secondary(rt: &impl Print) -> io::Result<()> {
    let zero = [0u8; 65536];
    let only = with_one(25, 3, 0x86380E43, 0x12345012);
    let marked = with_one(25, 3, 0x86380E43, 0x12345192);
    let protected = with_one(25, 3, 0x86380E43, 0x12345013);
    // An entry in the secondary group alone: unmap zeroes it, protect changes it, look finds it, a store marks it, map says 7. Source: rules 10 (only the primary group).
    line(rt, 465, unmap(only, 0, 0x12345012, zero))?;
    line(rt, 466, protect(3, only, 0, protected))?;
    line(rt, 467, look(VSID, only, 0, 0x12345012))?;
    line(rt, 468, access(1, 2, only, DONE, marked))?;
    line(rt, 469, map(only, 7, only))?;
    // After that unmap: look and unmap say 8, a load meets no match. Source: rules 6.
    line(rt, 470, look(VSID, zero, 8, 0))?;
    line(rt, 471, unmap(zero, 8, 0, zero))?;
    line(rt, 472, access(1, 1, zero, NO_MATCH, zero))
}

// H, V, VSID and API of an entry.
pub fn fields_of_match(rt: &impl Print) -> io::Result<()> {
    let h_in_primary = with_one(998, 0, 0x86380E43, 0x12345012);
    let no_h = with_one(25, 0, 0x86380E03, 0x12345012);
    let other_vsid = with_one(998, 0, 0xC6380E03, 0x12345012);
    let other_api = with_one(998, 0, 0x86380E02, 0x12345012);
    let not_valid = with_one(998, 0, 0x06380E03, 0x12345012);
    // H 1 in the primary group and H 0 in the secondary are no match: load, look, unmap. Source: rules 10 (forgetting H).
    line(rt, 473, access(1, 1, h_in_primary, NO_MATCH, h_in_primary))?;
    line(rt, 474, look(VSID, h_in_primary, 8, 0))?;
    line(rt, 475, unmap(h_in_primary, 8, 0, h_in_primary))?;
    line(rt, 476, access(1, 1, no_h, NO_MATCH, no_h))?;
    line(rt, 477, look(VSID, no_h, 8, 0))?;
    line(rt, 478, unmap(no_h, 8, 0, no_h))?;
    // VSID 0x8C701C has the same hash and API: load, look, unmap find no match, and its own look does. Source: rules 10 (the full VSID).
    line(rt, 479, access(1, 1, other_vsid, NO_MATCH, other_vsid))?;
    line(rt, 480, look(VSID, other_vsid, 8, 0))?;
    line(rt, 481, unmap(other_vsid, 8, 0, other_vsid))?;
    line(rt, 482, look(0x8C701C, other_vsid, 0, 0x12345012))?;
    // Another API, and V 0, are no match: load and look. Source: rules 4.
    line(rt, 483, access(1, 1, other_api, NO_MATCH, other_api))?;
    line(rt, 484, look(VSID, other_api, 8, 0))?;
    line(rt, 485, access(1, 1, not_valid, NO_MATCH, not_valid))?;
    line(rt, 486, look(VSID, not_valid, 8, 0))
}

// Whether a look at two matches with these second words answers this number and word.
fn duplicates(second: u32, other: u32, res: u32, word: u32) -> bool {
    look(VSID, with_both(7, second, other), res, word)
}

// Whether two matches contradict.
pub fn contradicting(rt: &impl Print) -> io::Result<()> {
    // Duplicate matches equal in every bit but H are one match. Source: rules 4.
    line(rt, 487, duplicates(0x12345012, 0x12345012, 0, 0x12345012))?;
    line(rt, 488, duplicates(0x12345E16, 0x12345E16, 0, 0x12345E16))?;
    // They contradict by RPN, by WIMG, by PP. Source: rules 4.
    line(rt, 489, duplicates(0x12345012, 0x12346012, 10, 0))?;
    line(rt, 490, duplicates(0x12345012, 0x1234501A, 10, 0))?;
    line(rt, 491, duplicates(0x12345012, 0x12345013, 10, 0))
}

// Calls on duplicate matches.
pub fn duplicates_used(rt: &impl Print) -> io::Result<()> {
    let zero = [0u8; 65536];
    let equal = with_both(2, 0x12345012, 0x12345012);
    let loaded = with_both(2, 0x12345112, 0x12345012);
    let stored = with_both(2, 0x12345192, 0x12345012);
    let protected = with_both(2, 0x12345010, 0x12345010);
    // Equal duplicates: a load and a store mark the first only. Source: rules 4, "the first is then used and marked".
    line(rt, 498, access(1, 1, equal, DONE, loaded))?;
    line(rt, 499, access(1, 2, equal, DONE, stored))?;
    // Protect changes every match, unmap zeroes every match, map says 7. Source: rules 6.
    line(rt, 502, protect(0, equal, 0, protected))?;
    line(rt, 503, unmap(equal, 0, 0x12345012, zero))?;
    line(rt, 504, map(equal, 7, equal))
}

// Marks merged by unmap, and what contradicting matches leave to the other calls.
pub fn merged(rt: &impl Print) -> io::Result<()> {
    let zero = [0u8; 65536];
    let marks = with_both(2, 0x12345112, 0x12345092);
    let later = with_both(2, 0x12345012, 0x12345192);
    let other = with_both(2, 0x12345012, 0x7777719B);
    let both = with_both(2, 0x12345011, 0x77777199);
    // Unmap gives the first match's second word with R and C each set if any match had it: R and C in one each, both in the second, another frame in the second. Source: rules 6.
    line(rt, 505, unmap(marks, 0, 0x12345192, zero))?;
    line(rt, 506, unmap(later, 0, 0x12345192, zero))?;
    line(rt, 507, unmap(other, 0, 0x12345192, zero))?;
    // Contradicting matches: protect changes every match, map says 7. Source: rules 6 and 7 (10 is access and look).
    line(rt, 508, protect(1, other, 0, both))?;
    line(rt, 509, map(other, 7, other))?;
    // Contradicting matches: nothing is searched in real mode (load in mode 2, fetch in mode 1), so 10 is not met. Source: rules 5, step 1.
    line(rt, 510, access(2, 1, other, [0, 0x00FFA01B, 3], other))?;
    line(rt, 511, access(1, 0, other, [0, 0x00FFA01B, 3], other))
}

// A fetch by a segment with N, whose page has contradicting matches.
fn fetch_no_execute() -> bool {
    let page = registers(&[(0, SDR1), (1, 0x100C701C)]);
    let table = with_both(2, 0x12345012, 0x7777719B);
    let mut lent = table;
    Asked::byte(2, 0, ADDRESS).answers_three(page, &mut lent, [65, 0x10000000, 0x400], &table)
}

// Ignored bits, and W with I in an entry.
pub fn ignored(rt: &impl Print) -> io::Result<()> {
    let zero = [0u8; 65536];
    let set = with_page(0x12345E16);
    let loaded = with_page(0x12345F16);
    let stored = with_page(0x12345F96);
    let protected = with_page(0x12345E15);
    let inhibited = with_page(0x12345062);
    let referenced = with_page(0x12345162);
    // A fetch with N 1 faults before the search, so contradicting matches are not met. Source: rules 5, steps 3 and 4.
    line(rt, 512, fetch_no_execute())?;
    // Ignored bits are kept by the marks of a load and a store and by protect; look and unmap give the word as it is. Source: rules 4.
    line(rt, 513, access(1, 1, set, DONE, loaded))?;
    line(rt, 514, access(1, 2, set, DONE, stored))?;
    line(rt, 515, protect(1, set, 0, protected))?;
    line(rt, 516, look(VSID, set, 0, 0x12345E16))?;
    line(rt, 517, unmap(set, 0, 0x12345E16, zero))?;
    // An entry in the table may have W and I both one. Source: rules 4.
    line(
        rt,
        518,
        access(1, 1, inhibited, [0, 0x1234501B, 12], referenced),
    )
}

// Where map writes.
pub fn map_places(rt: &impl Print) -> io::Result<()> {
    let zero = [0u8; 65536];
    let first = with_page(0x12345012);
    let junk = with_one(998, 0, 0x7FFFFFFF, 0xFFFFFFFF);
    let taken = with_one(998, 0, 0x80000080, 0x00001002);
    let second = table_with(&[
        Entry::new(998, 0, 0x80000080, 0x00001002),
        Entry::new(998, 1, 0x86380E03, 0x12345012),
    ]);
    let behind = with_one(25, 7, 0x86380E43, 0x99999012);
    // Map writes R, C and the ignored bits zero, into an empty entry and over a free one with every other bit set. Source: rules 6.
    line(rt, 519, map(zero, 0, first))?;
    line(rt, 520, map(junk, 0, first))?;
    // Map takes the first entry with V 0 in search order. Source: rules 6.
    line(rt, 521, map(taken, 0, second))?;
    // A match behind free entries is met: 7. Source: rules 7.
    line(rt, 522, map(behind, 7, behind))
}

// Whether an access of each kind in an empty table is translated, and so meets no match, or untranslated.
fn in_mode(mode: u32, fetch: bool, data: bool) -> bool {
    let zero = [0u8; 65536];
    let real = [0, ADDRESS, 3];
    let fetched = if fetch { [65, 0x40000000, 0x400] } else { real };
    let loaded = if data { NO_MATCH } else { real };
    let stored = if data { [64, 0x42000000, 0x300] } else { real };
    access(mode, 0, zero, fetched, zero)
        && access(mode, 1, zero, loaded, zero)
        && access(mode, 2, zero, stored, zero)
}

// The eight modes.
pub fn modes(rt: &impl Print) -> io::Result<()> {
    // Modes 0 to 7: fetch, load and store are translated by IR (2) and DR (1), else physical equals effective with attributes 3. Source: rules 5, step 1.
    line(rt, 523, in_mode(0, false, false))?;
    line(rt, 524, in_mode(1, false, true))?;
    line(rt, 525, in_mode(2, true, false))?;
    line(rt, 526, in_mode(3, true, true))?;
    line(rt, 527, in_mode(4, false, false))?;
    line(rt, 528, in_mode(5, false, true))?;
    line(rt, 529, in_mode(6, true, false))?;
    line(rt, 530, in_mode(7, true, true))
}
