// Accesses by two matches that agree: the first is used and marked.
use super::asked::{byte, done, in_both};
use std::io;
use test_report::asked::Asked;
use test_report::lent::{SDR1, SEGMENT, registers};
use test_report::line;

// Whether an access is done by the first match, which then has this second word; the other stays.
fn marks_first(kind: u32, first: u32, other: u32, marked: u32) -> bool {
    let marked = in_both(marked, other);
    byte(kind, in_both(first, other), done(998, 7), marked)
}

// Loads.
pub fn loads(rt: &impl Print) -> io::Result<()> {
    // Duplicates that differ in R, in C, in an ignored bit (20, 21, 22, 29) of the other, in all ignored bits of the first: a load is done and sets R in the first alone; R that stood in the first stays. Source: rules 4 and 5, step 7.
    for (number, first, other, marked) in [
        (845, 0x12345012, 0x12345112, 0x12345112),
        (846, 0x12345012, 0x12345092, 0x12345112),
        (847, 0x12345012, 0x12345812, 0x12345112),
        (848, 0x12345012, 0x12345412, 0x12345112),
        (849, 0x12345012, 0x12345212, 0x12345112),
        (850, 0x12345012, 0x12345016, 0x12345112),
        (851, 0x12345E16, 0x12345012, 0x12345F16),
        (852, 0x12345112, 0x12345012, 0x12345112),
    ] {
        line(rt, number, marks_first(1, first, other, marked))?;
    }
    Ok(())
}

// Stores and fetches.
pub fn other_kinds(rt: &impl Print) -> io::Result<()> {
    for (number, kind, first, other, marked) in [
        // A store sets R and C in the first alone: where the other has them already, where the first has R, where the other has ignored bits too. Source: rules 4 and 5, step 7.
        (853, 2, 0x12345012, 0x12345192, 0x12345192),
        (854, 2, 0x12345112, 0x12345012, 0x12345192),
        (855, 2, 0x12345012, 0x12345F96, 0x12345192),
        // A fetch sets R in the first alone: where the other has both marks, where the first has C. Source: rules 4 and 5, step 7.
        (856, 0, 0x12345012, 0x12345192, 0x12345112),
        (857, 0, 0x12345092, 0x12345012, 0x12345192),
    ] {
        line(rt, number, marks_first(kind, first, other, marked))?;
    }
    Ok(())
}

// Faults.
pub fn faults(rt: &impl Print) -> io::Result<()> {
    let read_only = in_both(0x12345013, 0x12345193);
    let guarded = in_both(0x1234500A, 0x1234598E);
    let protection = [64, 0x0A000000, 0x300, 0x00FFA01B, 0, 0, 0, 0, 5, 3, 998, 7];
    let no_fetch = [65, 0x10000000, 0x400, 0x00FFA01B, 0, 0, 0, 0, 4, 0, 998, 7];
    // Duplicates that agree and forbid the access: a store of PP 3 and a fetch of G fault by the first and mark neither. Source: rules 5, steps 5 to 7.
    line(rt, 858, byte(2, read_only, protection, read_only))?;
    line(rt, 859, byte(0, guarded, no_fetch, guarded))
}

// Whether two loads and a store on one table are done one after the other and leave the marks of both in the first match alone.
fn in_a_row() -> bool {
    let page = registers::<132>(&[(0, SDR1), (1, SEGMENT)]);
    let mut lent = in_both(0x12345012, 0x12345012);
    let mut answer = [0xAAu8; 48];
    for kind in [1, 1, 2] {
        if Asked::byte(1, kind, 0x00FFA01B).run(&page, &mut lent, &mut answer) != 0 {
            return false;
        }
    }
    lent == in_both(0x12345192, 0x12345012)
}

// An access after another.
pub fn touched(rt: &impl Print) -> io::Result<()> {
    // Equal duplicates in both groups: a load, a load and a store on one table are all done, and the first alone has their marks. Source: rules 4; request 3's own example.
    line(rt, 860, in_a_row())
}
