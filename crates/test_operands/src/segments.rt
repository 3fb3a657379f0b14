// Operands over the end of a segment, and over the last address.
use super::asked::fault;
use std::io;
use test_report::asked::Asked;
use test_report::lent::{Entry, SDR1, SEGMENT, registers, table_with};
use test_report::line;

// A table with page FFFF of VSID 0C701C in group 995, page 0 of VSID 1 in group 1, and page 0 of VSID 0C701C, which is not asked for, in group 28.
fn pages(before: u32, after: u32) -> [u8; 65536] {
    table_with(&[
        Entry::new(995, 0, 0x86380E3F, before),
        Entry::new(1, 0, 0x80000080, after),
        Entry::new(28, 0, 0x86380E00, 0x77777012),
    ])
}

// An access to two bytes of segment 0, which has VSID 0C701C, and two of segment 1, which has VSID 1, by the supervisor.
fn access(
    kind: u32,
    zero: u32,
    one: u32,
    table: [u8; 65536],
    eight: [u32; 8],
    after: [u8; 65536],
) -> bool {
    let asked = Asked {
        mode: 3,
        kind,
        address: 0x0FFFFFFE,
        length: 4,
    };
    let page = registers(&[(0, SDR1), (1, zero), (2, one)]);
    asked.answers(page, &table, eight, &after)
}

// One that faults and leaves the table.
fn stops(kind: u32, zero: u32, one: u32, table: [u8; 65536], word: u32, address: u32) -> bool {
    access(kind, zero, one, table, fault(kind, word, address), table)
}

// The answer of a done access.
const DONE: [u32; 8] = [0, 0x12345FFE, 2, 0x0FFFFFFE, 0x6789A000, 4, 2, 2];

// Each part by its own segment.
pub fn two_segments(rt: &impl Print) -> io::Result<()> {
    let table = pages(0x12345012, 0x6789A022);
    let read = pages(0x12345112, 0x6789A122);
    // Over the end of segment 0, each part by its own segment register: VSID, N of the second, N of the first, Ks of the second, Ks of the first. Source: rules 5, parts, steps 3 and 6.
    line(rt, 715, access(1, SEGMENT, 0x00000001, table, DONE, read))?;
    line(
        rt,
        716,
        stops(0, SEGMENT, 0x10000001, table, 0x10000000, 0x10000000),
    )?;
    line(
        rt,
        717,
        stops(0, 0x100C701C, 0x00000001, table, 0x10000000, 0x0FFFFFFE),
    )?;
    let both = pages(0x12345010, 0x6789A020);
    line(
        rt,
        718,
        stops(2, SEGMENT, 0x40000001, both, 0x0A000000, 0x10000000),
    )?;
    let first_good = pages(0x12345012, 0x6789A020);
    let written = pages(0x12345192, 0x6789A1A0);
    line(
        rt,
        719,
        access(2, 0x400C701C, 0x00000001, first_good, DONE, written),
    )
}

// Entries of page FFFF of VSID 2 in group 1021, and of page 0 of VSID 0C701C in group 28.
fn last(second: u32) -> Entry {
    Entry::new(1021, 2, 0x8000013F, second)
}

fn zero(second: u32) -> Entry {
    Entry::new(28, 4, 0x86380E00, second)
}

// An access at an address of segment 15, which has VSID 2, that goes on at 00000000 in segment 0, by the user.
fn over_last(
    kind: u32,
    address: u32,
    length: u32,
    table: [u8; 65536],
    eight: [u32; 8],
    after: [u8; 65536],
) -> bool {
    let asked = Asked {
        mode: 7,
        kind,
        address,
        length,
    };
    let page = registers(&[(0, SDR1), (1, SEGMENT), (16, 0x00000002)]);
    asked.answers(page, &table, eight, &after)
}

// Two bytes up to FFFFFFFF and two from 00000000 on, with these entries, and a fault that leaves the table.
fn stops_last(kind: u32, entries: &[Entry], word: u32, address: u32) -> bool {
    let table = table_with(entries);
    over_last(
        kind,
        0xFFFFFFFE,
        4,
        table,
        fault(kind, word, address),
        table,
    )
}

// The address after FFFFFFFF is 00000000.
pub fn last_address(rt: &impl Print) -> io::Result<()> {
    let both = table_with(&[last(0x12345012), zero(0x6789A022)]);
    let read = table_with(&[last(0x12345112), zero(0x6789A122)]);
    let written = table_with(&[last(0x12345192), zero(0x6789A1A2)]);
    let four = [0, 0x12345FFE, 2, 0xFFFFFFFE, 0x6789A000, 4, 2, 2];
    let longest = [0, 0x12345FFF, 2, 0xFFFFFFFF, 0x6789A000, 4, 1, 127];
    // Over FFFFFFFF by pages: the second page is page 0 of segment 0; its faults are at 00000000, the first's at the operand's own address; and 127 bytes from 00000000 on. Source: rules 5, parts.
    line(rt, 720, over_last(1, 0xFFFFFFFE, 4, both, four, read))?;
    line(rt, 721, stops_last(1, &[last(0x12345012)], 0x40000000, 0))?;
    let read_only = [last(0x12345012), zero(0x6789A023)];
    line(rt, 722, stops_last(2, &read_only, 0x0A000000, 0))?;
    line(
        rt,
        723,
        stops_last(2, &[zero(0x6789A022)], 0x42000000, 0xFFFFFFFE),
    )?;
    line(
        rt,
        724,
        over_last(2, 0xFFFFFFFF, 128, both, longest, written),
    )
}
