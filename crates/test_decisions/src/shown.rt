// What an access to one byte of the page of the cases shows.
use test_report::asked::Asked;
use test_report::lent::{Entry, SDR1, registers, table_with};

// The address of the cases: segment 0, page 0FFA. Under SDR1 and VSID of the cases its groups are 998 and 25.
pub const ADDRESS: u32 = 0x00FFA01B;

// An entry of that page in its primary group.
pub fn primary(entry: usize, second: u32) -> Entry {
    Entry::new(998, entry, 0x86380E03, second)
}

// One in its secondary group.
pub fn secondary(entry: usize, second: u32) -> Entry {
    Entry::new(25, entry, 0x86380E43, second)
}

// Contradicting matches of it, both with G.
pub fn contradicting() -> [Entry; 2] {
    [primary(0, 0x1234501A), secondary(0, 0x7777701A)]
}

// A register page with this segment register 0, and instruction pair 1 and data pair 2 over the address of the cases with one lower word.
pub fn covered(segment: u32, lower: u32) -> [u8; 132] {
    registers(&[
        (0, SDR1),
        (1, segment),
        (19, 0x00FE0003),
        (20, lower),
        (29, 0x00FE0003),
        (30, lower),
    ])
}

// Whether an access by this register page to a table with these entries has this result and shows this record.
pub fn shows(page: [u8; 132], asked: Asked, entries: &[Entry], res: u32, record: [u32; 4]) -> bool {
    asked.shows(page, &mut table_with(entries), res, record)
}

// The same of one to a byte at the address of the cases by this segment register 0, with data and instructions translated, for the supervisor.
pub fn page_shows(segment: u32, kind: u32, entries: &[Entry], res: u32, record: [u32; 4]) -> bool {
    let page = registers(&[(0, SDR1), (1, segment)]);
    let asked = Asked::byte(3, kind, ADDRESS);
    shows(page, asked, entries, res, record)
}
