// Operands over the edge between pages 0FFA and 0FFB, each with a second match in its secondary group: three bytes before it and five after.
use super::asked::{REFUSED, answers, primary, secondary};
use std::io;
use test_report::asked::Asked;
use test_report::lent::{Entry, table_with};
use test_report::line;

// The second words of a page's entry in its primary group and of the one in its secondary group.
#[derive(Clone, Copy)]
struct Duplicates(u32, u32);

// A table with both pages in both of their groups: 998 and 25, 999 and 24.
fn both_pages(before: Duplicates, after: Duplicates) -> [u8; 65536] {
    table_with(&[
        primary(0, before.0),
        Entry {
            group: 999,
            ..primary(3, after.0)
        },
        secondary(0, before.1),
        Entry {
            group: 24,
            ..secondary(2, after.1)
        },
    ])
}

// An access to eight bytes at 00FFAFFD.
fn at_edge(kind: u32, lent: [u8; 65536], twelve: [u32; 12], after: [u8; 65536]) -> bool {
    let asked = Asked {
        length: 8,
        ..Asked::byte(3, kind, 0x00FFAFFD)
    };
    answers(asked, lent, twelve, after)
}

// The answer where both pages are done, RPN 12345 and WIMG 2 before the edge, RPN 6789A and WIMG 4 after it.
const DONE: [u32; 12] = [
    0, 0x12345FFD, 2, 0x00FFAFFD, 0x6789A000, 4, 3, 5, 6, 2, 998, 0,
];

// Both agree.
pub fn agreeing(rt: &impl Print) -> io::Result<()> {
    // Over a page edge, duplicates of both pages that agree: a load where R differs before the edge and C after it, a store where ignored bits differ; the first of each page is marked. Source: rules 4 and 5.
    let marks = both_pages(
        Duplicates(0x12345012, 0x12345112),
        Duplicates(0x6789A022, 0x6789A0A2),
    );
    let read = both_pages(
        Duplicates(0x12345112, 0x12345112),
        Duplicates(0x6789A122, 0x6789A0A2),
    );
    line(rt, 900, at_edge(1, marks, DONE, read))?;
    let ignored = both_pages(
        Duplicates(0x12345012, 0x12345E16),
        Duplicates(0x6789AE26, 0x6789A022),
    );
    let written = both_pages(
        Duplicates(0x12345192, 0x12345E16),
        Duplicates(0x6789AFA6, 0x6789A022),
    );
    line(rt, 901, at_edge(2, ignored, DONE, written))
}

// Whether a load over the edge by these entries is refused 10 and marks neither page.
fn refused(before: Duplicates, after: Duplicates) -> bool {
    let lent = both_pages(before, after);
    at_edge(1, lent, REFUSED, lent)
}

// One of them contradicts.
pub fn contradicting(rt: &impl Print) -> io::Result<()> {
    let by_pp = Duplicates(0x6789A022, 0x6789A021);
    let by_attributes = Duplicates(0x12345012, 0x1234501A);
    // Over a page edge, duplicates of one page agree and those of the other contradict: after the edge by PP, before it by WIMG; neither page is marked. Source: rules 4 and 5.
    let agreeing = Duplicates(0x12345012, 0x12345112);
    line(rt, 902, refused(agreeing, by_pp))?;
    let agreeing = Duplicates(0x6789A022, 0x6789A0A2);
    line(rt, 903, refused(by_attributes, agreeing))
}
