// The entries of duplicate matches, an access to them, and what it is held to: all twelve words of its answer, and the table.
use test_report::answered::begins_with;
use test_report::asked::Asked;
use test_report::called::look;
use test_report::lent::{Entry, SDR1, SEGMENT, VSID, registers, table_with};

// An entry of the page of the cases in its primary group.
pub fn primary(entry: usize, second: u32) -> Entry {
    Entry::new(998, entry, 0x86380E03, second)
}

// One in its secondary group.
pub fn secondary(entry: usize, second: u32) -> Entry {
    Entry::new(25, entry, 0x86380E43, second)
}

// A table with the page in both groups, at entry 7 of the primary one and entry 0 of the secondary one.
pub fn in_both(first: u32, other: u32) -> [u8; 65536] {
    table_with(&[primary(7, first), secondary(0, other)])
}

// The answer of an access to the byte at 00FFA01B that is done by RPN 12345, WIMG 2, PP 2 of this entry.
pub fn done(group: u32, entry: u32) -> [u32; 12] {
    [0, 0x1234501B, 2, 0x00FFA01B, 0, 0, 1, 0, 6, 2, group, entry]
}

// The answer of an access to contradicting matches.
pub const REFUSED: [u32; 12] = [10, 0, 0, 0, 0, 0, 0, 0, 0, 0, 0, 0];

// Whether an access by segment register 0 of the cases answers these words and leaves this table.
pub fn answers(asked: Asked, table: [u8; 65536], twelve: [u32; 12], after: [u8; 65536]) -> bool {
    let page = registers::<132>(&[(0, SDR1), (1, SEGMENT)]);
    let mut lent = table;
    let mut answer = [0xAAu8; 48];
    let number = asked.run(&page, &mut lent, &mut answer);
    number == twelve[0] && begins_with(&answer, &twelve) && lent == after
}

// The same of one to the byte at 00FFA01B, with data and instructions translated, for the supervisor.
pub fn byte(kind: u32, table: [u8; 65536], twelve: [u32; 12], after: [u8; 65536]) -> bool {
    answers(Asked::byte(3, kind, 0x00FFA01B), table, twelve, after)
}

// Whether the page's matches contradict: a look, a fetch, a load and a store are refused 10, and the table stays.
pub fn contradict(table: [u8; 65536]) -> bool {
    look(VSID, table, 10, 0) && (0..3).all(|kind| byte(kind, table, REFUSED, table))
}
