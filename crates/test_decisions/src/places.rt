// Where the entry used stands: the number of its group and its own in the group.
use super::shown::{ADDRESS, page_shows, primary, secondary};
use std::io;
use test_report::asked::Asked;
use test_report::lent::{SEGMENT, registers};
use test_report::line;

// The primary group.
pub fn in_primary(rt: &impl Print) -> io::Result<()> {
    // An entry of the primary group, 998, is shown by its number, 0 to 7. Source: rules 4 and 5.
    for entry in 0..8u32 {
        let used = primary(entry as usize, 0x12345012);
        let good = page_shows(SEGMENT, 1, &[used], 0, [6, 2, 998, entry]);
        line(rt, 789 + u64::from(entry), good)?;
    }
    Ok(())
}

// The secondary group.
pub fn in_secondary(rt: &impl Print) -> io::Result<()> {
    // An entry of the secondary group, 25, is shown by that group's number and by its own, 0 to 7. Source: rules 4 and 5.
    for entry in 0..8u32 {
        let used = secondary(entry as usize, 0x12345012);
        let good = page_shows(SEGMENT, 1, &[used], 0, [6, 2, 25, entry]);
        line(rt, 797 + u64::from(entry), good)?;
    }
    Ok(())
}

// Faults show the entry too.
pub fn of_faults(rt: &impl Print) -> io::Result<()> {
    for (number, entry, record) in [
        // The entry is shown where page protection stops a store, in either group. Source: rules 5, step 6.
        (805, primary(5, 0x12345013), [5, 3, 998, 5]),
        (806, secondary(2, 0x12345013), [5, 3, 25, 2]),
    ] {
        line(rt, number, page_shows(SEGMENT, 2, &[entry], 64, record))?;
    }
    Ok(())
}

// Duplicate matches.
pub fn duplicates(rt: &impl Print) -> io::Result<()> {
    let one_group = [primary(5, 0x12345012), primary(2, 0x12345012)];
    let both_groups = [primary(7, 0x12345012), secondary(0, 0x12345012)];
    let other_group = [secondary(6, 0x12345012), secondary(1, 0x12345012)];
    for (number, entries, record) in [
        // Of equal duplicates the first in search order is shown: both in the primary group, one in each, both in the secondary. Source: rules 4.
        (807, one_group, [6, 2, 998, 2]),
        (808, both_groups, [6, 2, 998, 7]),
        (809, other_group, [6, 2, 25, 1]),
    ] {
        line(rt, number, page_shows(SEGMENT, 1, &entries, 0, record))?;
    }
    Ok(())
}

// Whether a load by a table of 2048 groups is done and shows this place.
fn of_2048(table: [u8; 131072], group: u32, entry: u32) -> bool {
    let page = registers(&[(0, 0x0F980001), (1, SEGMENT)]);
    let mut lent = table;
    Asked::byte(1, 1, ADDRESS).shows(page, &mut lent, 0, [6, 2, group, entry])
}

// A larger table.
pub fn more_groups(rt: &impl Print) -> io::Result<()> {
    let mut primary = [0u8; 131072];
    primary[129432..129440].copy_from_slice(b"\x86\x38\x0E\x03\x12\x34\x50\x12");
    let mut secondary = [0u8; 131072];
    secondary[1632..1640].copy_from_slice(b"\x86\x38\x0E\x43\x12\x34\x50\x12");
    // In a table of 2048 groups, SDR1 0F980001: entry 3 of the primary group, 2022, at byte 129432, and entry 4 of the secondary, 25, at byte 1632. Source: rules 4 and 5.
    line(rt, 810, of_2048(primary, 2022, 3))?;
    line(rt, 811, of_2048(secondary, 25, 4))
}
