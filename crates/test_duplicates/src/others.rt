// Page calls on matches that agree, or come to agree.
use super::asked::{in_both, primary, secondary};
use std::io;
use test_report::called::{look, map, protect, unmap};
use test_report::lent::{VSID, table_with};
use test_report::line;

// Unmap.
pub fn unmaps(rt: &impl Print) -> io::Result<()> {
    let zero = [0u8; 65536];
    let ignored = in_both(0x12345812, 0x12345196);
    let three = table_with(&[
        primary(7, 0x12345012),
        secondary(0, 0x12345112),
        secondary(3, 0x12345092),
    ]);
    let marked = in_both(0x12345192, 0x12345012);
    // Unmap gives the first's word with R and C of all: the first's ignored bits and not the other's, R of the second and C of the third, both of the first. Source: rules 6.
    line(rt, 861, unmap(ignored, 0, 0x12345992, zero))?;
    line(rt, 862, unmap(three, 0, 0x12345192, zero))?;
    line(rt, 863, unmap(marked, 0, 0x12345192, zero))
}

// Protect and map.
pub fn protects(rt: &impl Print) -> io::Result<()> {
    let agreeing = in_both(0x12345112, 0x12345096);
    let protected = in_both(0x12345111, 0x12345095);
    let unequal = in_both(0x12345011, 0x12345113);
    let equal = in_both(0x12345012, 0x12345112);
    // Protect puts PP into each and keeps marks and ignored bits; map says 7. Source: rules 6.
    line(rt, 864, protect(1, agreeing, 0, protected))?;
    line(rt, 865, map(agreeing, 7, agreeing))?;
    // Duplicates that differ in PP and R contradict, and agree after a protect. Source: rules 4 and 6.
    line(rt, 866, look(VSID, unequal, 10, 0))?;
    line(rt, 867, protect(2, unequal, 0, equal))?;
    line(rt, 868, look(VSID, equal, 0, 0x12345012))
}
