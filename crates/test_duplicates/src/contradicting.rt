// Two matches that contradict: every bit that counts, by itself and beside bits that do not.
use super::asked::{contradict, in_both, primary, secondary};
use std::io;
use test_report::lent::table_with;
use test_report::line;

// In both groups.
pub fn in_both_groups(rt: &impl Print) -> io::Result<()> {
    for (number, first, other) in [
        // Duplicates contradict by the first and the last bit of RPN, by W, I, M and G, by the first and the second bit of PP: look, fetch, load and store are refused 10. Source: rules 4.
        (869, 0x12345012, 0x92345012),
        (870, 0x12345012, 0x12344012),
        (871, 0x12345012, 0x12345052),
        (872, 0x12345012, 0x12345032),
        (873, 0x12345012, 0x12345002),
        (874, 0x12345012, 0x1234501A),
        (875, 0x12345012, 0x12345010),
        (876, 0x12345012, 0x12345013),
        // They contradict too where marks or ignored bits differ as well: RPN and R, WIMG and C, PP and the ignored bits. Source: rules 4.
        (877, 0x12345112, 0x12346012),
        (878, 0x12345012, 0x1234508A),
        (879, 0x12345012, 0x12345E17),
    ] {
        line(rt, number, contradict(in_both(first, other)))?;
    }
    Ok(())
}

// In one group.
pub fn in_one_group(rt: &impl Print) -> io::Result<()> {
    let by_pp = [primary(2, 0x12345012), primary(5, 0x12345013)];
    let by_rpn = [secondary(1, 0x12345012), secondary(6, 0x12346012)];
    // They contradict in one group: by PP in the primary, by RPN in the secondary. Source: rules 4.
    line(rt, 880, contradict(table_with(&by_pp)))?;
    line(rt, 881, contradict(table_with(&by_rpn)))
}
