// Accesses, by a page, by two, by a block, in real mode, and a fault.
use super::lent::{registers, table_with, table_with_next};
use std::io;
use test_report::answered::begins_with;
use test_report::asked::Asked;
use test_report::line;

// Whether an access answers these bytes, has the result with which they begin, and leaves this table.
fn answers(asked: Asked, table: [u8; 65536], expected: &[u8; 48], after: [u8; 65536]) -> bool {
    let mut lent = table;
    let mut answer = [0xAAu8; 48];
    let number = asked.run(&registers(), &mut lent, &mut answer);
    begins_with(expected, &[number]) && answer == *expected && lent == after
}

// Whether an access of the byte at 00FFA01B is done by entry 0 of group 998, 1234501B with WIMG 2, and leaves these last bytes of the entry.
fn byte(mode: u32, kind: u32, seventh: u8, eighth: u8) -> bool {
    let asked = Asked::byte(mode, kind, 0x00FFA01B);
    let expected =
        b"\x00\x00\x00\x00\x12\x34\x50\x1B\x00\x00\x00\x02\x00\xFF\xA0\x1B\x00\x00\x00\x00\x00\x00\x00\x00\x00\x00\x00\x01\x00\x00\x00\x00\x00\x00\x00\x06\x00\x00\x00\x02\x00\x00\x03\xE6\x00\x00\x00\x00";
    let marked = table_with(seventh, eighth);
    answers(asked, table_with(0x50, 0x12), expected, marked)
}

// Four bytes from 00FFAFFE: two in each of two pages.
fn over_an_edge() -> bool {
    let asked = Asked {
        length: 4,
        ..Asked::byte(1, 1, 0x00FFAFFE)
    };
    let expected =
        b"\x00\x00\x00\x00\x12\x34\x5F\xFE\x00\x00\x00\x02\x00\xFF\xAF\xFE\x54\x32\x10\x00\x00\x00\x00\x00\x00\x00\x00\x02\x00\x00\x00\x02\x00\x00\x00\x06\x00\x00\x00\x02\x00\x00\x03\xE6\x00\x00\x00\x00";
    let marked = table_with_next(0x51, 0x11);
    answers(asked, table_with_next(0x50, 0x10), expected, marked)
}

// Whether an access of the byte at an address answers these bytes and leaves the table.
fn leaves(mode: u32, kind: u32, address: u32, expected: &[u8; 48]) -> bool {
    let asked = Asked::byte(mode, kind, address);
    let table = table_with(0x50, 0x12);
    answers(asked, table, expected, table)
}

// By one page, the marks in the entry's last two bytes; by two. Source: rules 5.
pub fn pages(rt: &impl Print) -> io::Result<()> {
    line(rt, 1235, byte(2, 0, 0x51, 0x12))?;
    line(rt, 1236, byte(1, 1, 0x51, 0x12))?;
    line(rt, 1237, byte(1, 2, 0x51, 0x92))?;
    line(rt, 1238, over_an_edge())
}

// A store by the data block at 80000000, 1FFFFFFF with WIMG 11; a fetch in real mode; a store to page 0FFB, which has no entry. Source: rules 5.
pub fn others(rt: &impl Print) -> io::Result<()> {
    let by_block =
        b"\x00\x00\x00\x00\x1F\xFF\xFF\xFF\x00\x00\x00\x0B\x8F\xFF\xFF\xFF\x00\x00\x00\x00\x00\x00\x00\x00\x00\x00\x00\x01\x00\x00\x00\x00\x00\x00\x00\x01\x00\x00\x00\x00\x00\x00\x00\x00\x00\x00\x00\x00";
    line(rt, 1239, leaves(1, 2, 0x8FFFFFFF, by_block))?;
    let in_real_mode =
        b"\x00\x00\x00\x00\x00\xFF\xA0\x1B\x00\x00\x00\x03\x00\xFF\xA0\x1B\x00\x00\x00\x00\x00\x00\x00\x00\x00\x00\x00\x01\x00\x00\x00\x00\x00\x00\x00\x00\x00\x00\x00\x00\x00\x00\x00\x00\x00\x00\x00\x00";
    line(rt, 1240, leaves(0, 0, 0x00FFA01B, in_real_mode))?;
    let no_match =
        b"\x00\x00\x00\x40\x42\x00\x00\x00\x00\x00\x03\x00\x00\xFF\xB0\x1B\x00\x00\x00\x00\x00\x00\x00\x00\x00\x00\x00\x00\x00\x00\x00\x00\x00\x00\x00\x03\x00\x00\x00\x00\x00\x00\x00\x00\x00\x00\x00\x00";
    line(rt, 1241, leaves(1, 2, 0x00FFB01B, no_match))
}
