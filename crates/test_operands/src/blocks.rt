// Operands over a page edge with a block on one side of it or on both.
use super::asked::fault;
use std::io;
use test_report::asked::Asked;
use test_report::lent::{Entry, SDR1, SEGMENT, registers, table_with};
use test_report::line;

// The edge, and the address of an access to two bytes before it and two after it.
const EDGE: u32 = 0x01000000;

const ADDRESS: u32 = 0x00FFFFFE;

// The upper and the lower word of a block.
#[derive(Clone, Copy)]
struct Pair(u32, u32);

// A block that is off.
const NONE: Pair = Pair(0, 0);

// A register page with segment register 0 of the cases, these data pairs 0 and 1, and pair 0 as instruction pair 0 too.
fn with_blocks(one: Pair, other: Pair) -> [u8; 132] {
    registers(&[
        (0, SDR1),
        (1, SEGMENT),
        (17, one.0),
        (18, one.1),
        (25, one.0),
        (26, one.1),
        (27, other.0),
        (28, other.1),
    ])
}

// Whether an access on a table of zeros, by the supervisor, answers these words.
fn by_blocks(page: [u8; 132], kind: u32, address: u32, length: u32, eight: [u32; 8]) -> bool {
    let asked = Asked {
        mode: 3,
        kind,
        address,
        length,
    };
    let zero = [0u8; 65536];
    asked.answers(page, &zero, eight, &zero)
}

// A table with page 1000, after the edge: its group is 28 and its API 4.
fn page_after(second: u32) -> [u8; 65536] {
    table_with(&[Entry::new(28, 2, 0x86380E04, second)])
}

// A table with page 0FFF, before it: its group is 995 and its API 3.
fn page_before(second: u32) -> [u8; 65536] {
    table_with(&[Entry::new(995, 2, 0x86380E03, second)])
}

// Whether the access over the edge, by one data pair, answers these words and leaves this table.
fn at_edge(
    block: Pair,
    mode: u32,
    kind: u32,
    table: [u8; 65536],
    eight: [u32; 8],
    after: [u8; 65536],
) -> bool {
    let asked = Asked {
        mode,
        kind,
        address: ADDRESS,
        length: 4,
    };
    asked.answers(with_blocks(block, NONE), &table, eight, &after)
}

// One block on both sides.
pub fn within_block(rt: &impl Print) -> io::Result<()> {
    let large = with_blocks(Pair(0x80001FFE, 0x10000002), NONE);
    let one = [0, 0x10000FFF, 0, 0x80000FFF, 0x10001000, 0, 1, 1];
    let inner = [0, 0x1001FFFF, 0, 0x8001FFFF, 0x10020000, 0, 1, 1];
    let fetched = [0, 0x10000FFE, 0, 0x80000FFE, 0x10001000, 0, 2, 2];
    // Over a page edge within one block, which has two parts too: at any page, at 128 Kbytes, and by a fetch. Source: rules 5, parts and step 2.
    line(rt, 725, by_blocks(large, 1, 0x80000FFF, 2, one))?;
    line(rt, 726, by_blocks(large, 2, 0x8001FFFF, 2, inner))?;
    line(rt, 727, by_blocks(large, 0, 0x80000FFE, 4, fetched))
}

// A block, and another block or a page.
pub fn two_means(rt: &impl Print) -> io::Result<()> {
    let two = with_blocks(Pair(0x80000002, 0x10000012), Pair(0x80020002, 0x30000022));
    let blocks = [0, 0x1001FFFE, 2, 0x8001FFFE, 0x30000000, 4, 2, 6];
    // Over a page edge from block to block, from a block to a page, which alone is marked, and from a page to a block. Source: rules 5, parts and step 2.
    line(rt, 728, by_blocks(two, 1, 0x8001FFFE, 8, blocks))?;
    let first = Pair(0x00FE0002, 0x10000012);
    let to_page = [0, 0x1001FFFE, 2, 0x00FFFFFE, 0x6789A000, 4, 2, 2];
    let after = page_after(0x6789A022);
    let read = page_after(0x6789A122);
    line(rt, 729, at_edge(first, 3, 1, after, to_page, read))?;
    let second = Pair(0x01000002, 0x30000022);
    let from_page = [0, 0x12345FFE, 2, 0x00FFFFFE, 0x30000000, 4, 2, 2];
    let before = page_before(0x12345012);
    let written = page_before(0x12345192);
    line(rt, 730, at_edge(second, 1, 2, before, from_page, written))
}

// Whether the access over the edge, by one data pair, faults with this word at this address and leaves the table.
fn stops(block: Pair, mode: u32, kind: u32, table: [u8; 65536], word: u32, address: u32) -> bool {
    at_edge(block, mode, kind, table, fault(kind, word, address), table)
}

// One part not done.
pub fn stopped(rt: &impl Print) -> io::Result<()> {
    let page_only = page_before(0x12345012);
    let after = page_after(0x6789A022);
    let zero = [0u8; 65536];
    let read_only = Pair(0x01000002, 0x30000021);
    let no_access = Pair(0x00FE0002, 0x10000010);
    let good = Pair(0x00FE0002, 0x10000012);
    // Over a page edge with a block: a store to a block of PP 1 after a page, a load of a block of PP 0 before a page, no match after a block, and for the user no match where the block is the supervisor's; no page is marked. Source: rules 5, parts and step 2.
    line(rt, 731, stops(read_only, 1, 2, page_only, 0x0A000000, EDGE))?;
    line(rt, 732, stops(no_access, 1, 1, after, 0x08000000, ADDRESS))?;
    line(rt, 733, stops(good, 1, 1, zero, 0x40000000, EDGE))?;
    line(rt, 734, stops(good, 5, 1, after, 0x40000000, ADDRESS))
}
