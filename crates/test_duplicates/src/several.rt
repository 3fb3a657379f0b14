// Two matches in one group, three and sixteen matches.
use super::asked::{byte, contradict, done, primary, secondary};
use std::io;
use test_report::called::{look, unmap};
use test_report::lent::{VSID, table_with};
use test_report::line;

// Two in one group.
pub fn one_group(rt: &impl Print) -> io::Result<()> {
    // Two in one group agree though R or C differs, and the first in search order gains R: entry 2 before entry 5 of the primary, entry 1 before entry 6 of the secondary. Source: rules 4.
    let read = primary(5, 0x12345112);
    let before = table_with(&[read, primary(2, 0x12345012)]);
    let after = table_with(&[read, primary(2, 0x12345112)]);
    line(rt, 882, byte(1, before, done(998, 2), after))?;
    let changed = secondary(6, 0x12345092);
    let before = table_with(&[changed, secondary(1, 0x12345012)]);
    let after = table_with(&[changed, secondary(1, 0x12345112)]);
    line(rt, 883, byte(1, before, done(25, 1), after))
}

// Whether three matches in the primary group contradict.
fn in_primary(first: u32, second: u32, third: u32) -> bool {
    let three = [primary(1, first), primary(4, second), primary(6, third)];
    contradict(table_with(&three))
}

// Whether one match in the primary group and two in the secondary contradict.
fn in_both(first: u32, second: u32, third: u32) -> bool {
    let three = [primary(1, first), secondary(2, second), secondary(5, third)];
    contradict(table_with(&three))
}

// Three of which the third contradicts the others.
pub fn third_differs(rt: &impl Print) -> io::Result<()> {
    let behind_two = table_with(&[
        primary(1, 0x12345012),
        primary(4, 0x12345012),
        secondary(0, 0x12346012),
    ]);
    let in_secondary = table_with(&[
        secondary(0, 0x12345012),
        secondary(1, 0x12345012),
        secondary(7, 0x12345013),
    ]);
    // Of three the third alone differs: by PP in the primary group, by RPN in the secondary behind two in the primary, by WIMG in the secondary behind one in each, by PP where all are in the secondary. Source: rules 4.
    line(rt, 884, in_primary(0x12345012, 0x12345012, 0x12345013))?;
    line(rt, 885, contradict(behind_two))?;
    line(rt, 886, in_both(0x12345012, 0x12345012, 0x1234501A))?;
    line(rt, 887, contradict(in_secondary))
}

// Three of which the second contradicts the first.
pub fn second_differs(rt: &impl Print) -> io::Result<()> {
    // Of three the second alone differs: by PP in the primary group, by RPN in the secondary. Source: rules 4.
    line(rt, 888, in_primary(0x12345012, 0x12345010, 0x12345012))?;
    line(rt, 889, in_both(0x12345012, 0x12346012, 0x12345012))?;
    // Of three the later two agree with each other and not with the first: by RPN in the primary group, by PP in the secondary. Source: rules 4.
    line(rt, 890, in_primary(0x12345012, 0x12346012, 0x12346112))?;
    line(rt, 891, in_both(0x12345012, 0x12345013, 0x12345193))
}

// Three that agree.
pub fn three_agree(rt: &impl Print) -> io::Result<()> {
    // Of three that agree, each with marks or ignored bits of its own, the first alone is marked: a load in the primary group, a store by one in the primary and two in the secondary, a load in the secondary. Source: rules 4.
    let (second, third) = (primary(4, 0x12345112), primary(6, 0x12345C96));
    let before = table_with(&[primary(1, 0x12345012), second, third]);
    let after = table_with(&[primary(1, 0x12345112), second, third]);
    line(rt, 892, byte(1, before, done(998, 1), after))?;
    let (second, third) = (secondary(0, 0x12345092), secondary(1, 0x12345116));
    let before = table_with(&[primary(6, 0x12345012), second, third]);
    let after = table_with(&[primary(6, 0x12345192), second, third]);
    line(rt, 893, byte(2, before, done(998, 6), after))?;
    let (second, third) = (secondary(3, 0x12345012), secondary(4, 0x12345192));
    let before = table_with(&[secondary(2, 0x12345212), second, third]);
    let after = table_with(&[secondary(2, 0x12345312), second, third]);
    line(rt, 894, byte(1, before, done(25, 2), after))?;
    // A look at the last of these gives the first's own word. Source: rules 6.
    line(rt, 895, look(VSID, before, 0, 0x12345212))
}

// A table with the page in all sixteen entries of its groups, by the second words of the first, of those between, and of the last.
fn sixteen(first: u32, between: u32, last: u32) -> [u8; 65536] {
    let mut table = [0u8; 65536];
    for entry in 0..8 {
        primary(entry, if entry == 0 { first } else { between }).put(&mut table);
        secondary(entry, if entry == 7 { last } else { between }).put(&mut table);
    }
    table
}

// Sixteen.
pub fn all_sixteen(rt: &impl Print) -> io::Result<()> {
    let before = sixteen(0x12345012, 0x12345F96, 0x12345F96);
    let after = sixteen(0x12345112, 0x12345F96, 0x12345F96);
    let by_pp = sixteen(0x12345012, 0x12345F96, 0x12345F97);
    let by_rpn = sixteen(0x12346012, 0x12345F96, 0x12345F96);
    let last_marked = sixteen(0x12345012, 0x12345012, 0x12345192);
    // Sixteen matches: a load by the first marks it alone; the last alone differs, by PP; the first alone differs, by RPN; unmap gives R and C of the last. Source: rules 4 and 6.
    line(rt, 896, byte(1, before, done(998, 0), after))?;
    line(rt, 897, contradict(by_pp))?;
    line(rt, 898, contradict(by_rpn))?;
    line(rt, 899, unmap(last_marked, 0, 0x12345192, [0; 65536]))
}
