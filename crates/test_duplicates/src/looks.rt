// Looks at two matches that differ in R, C or ignored bits alone.
use super::asked::in_both;
use std::io;
use test_report::called::look;
use test_report::lent::VSID;
use test_report::line;

// Both give the first match's own word.
pub fn looks(rt: &impl Print) -> io::Result<()> {
    for (number, first, other) in [
        // Duplicates that differ in R or C alone agree, and a look gives the first's own word: R in the first, R in the other, C in the first, C in the other. Source: rules 4 and 6.
        (835, 0x12345112, 0x12345012),
        (836, 0x12345012, 0x12345112),
        (837, 0x12345092, 0x12345012),
        (838, 0x12345012, 0x12345092),
        // Duplicates that differ in an ignored bit alone agree (20, 21, 22, 29), also where all of these and R and C differ, and a look gives the first's own word. Source: rules 4 and 6.
        (839, 0x12345012, 0x12345812),
        (840, 0x12345012, 0x12345412),
        (841, 0x12345012, 0x12345212),
        (842, 0x12345012, 0x12345016),
        (843, 0x12345F96, 0x12345012),
        (844, 0x12345012, 0x12345F96),
    ] {
        line(rt, number, look(VSID, in_both(first, other), 0, first))?;
    }
    Ok(())
}
