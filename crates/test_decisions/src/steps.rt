// The steps in their order: the first whose condition holds decides, and no later one is shown.
use super::shown::{ADDRESS, contradicting, covered, page_shows, primary, secondary, shows};
use std::io;
use test_report::asked::Asked;
use test_report::lent::{Entry, SEGMENT};
use test_report::line;

// Segment register 0 with N.
const NO_EXECUTE: u32 = 0x100C701C;

// Whether an access in real mode shows four zero words, though a block of PP 0 holds the address, the segment has N and the matches contradict.
fn real(mode: u32, kind: u32) -> bool {
    let page = covered(NO_EXECUTE, 0x10000000);
    let asked = Asked::byte(mode, kind, ADDRESS);
    shows(page, asked, &contradicting(), 0, [0; 4])
}

// Rule 0.
pub fn real_mode(rt: &impl Print) -> io::Result<()> {
    // Real mode is shown as four zero words, by a fetch with IR off, a load and a store with DR off, whatever blocks, segment and table have. Source: rules 5, step 1.
    line(rt, 735, real(5, 0))?;
    line(rt, 736, real(6, 1))?;
    line(rt, 737, real(4, 2))
}

// Whether a fetch by a segment with N shows rule 2.
fn stopped(entries: &[Entry]) -> bool {
    page_shows(NO_EXECUTE, 0, entries, 65, [2, 0, 0, 0])
}

// Rule 2.
pub fn no_execute(rt: &impl Print) -> io::Result<()> {
    let mapped = [primary(0, 0x12345012)];
    let done = page_shows(NO_EXECUTE, 1, &mapped, 0, [6, 2, 998, 0]);
    // No-execute is shown for a fetch where the segment has N: the page is mapped, has no match, has G, or has contradicting matches; a load by that segment is done by the page. Source: rules 5, step 3.
    line(rt, 738, stopped(&mapped))?;
    line(rt, 739, stopped(&[]))?;
    line(rt, 740, stopped(&[primary(0, 0x1234501A)]))?;
    line(rt, 741, stopped(&contradicting()))?;
    line(rt, 742, done)
}

// Whether an access meets no match and shows no place.
fn unmatched(kind: u32, entries: &[Entry]) -> bool {
    let result = if kind == 0 { 65 } else { 64 };
    page_shows(SEGMENT, kind, entries, result, [3, 0, 0, 0])
}

// Rule 3.
pub fn no_match(rt: &impl Print) -> io::Result<()> {
    let misplaced = Entry {
        group: 998,
        ..secondary(0, 0x12345012)
    };
    // No match is shown without a place: a load, a store and a fetch of an empty table, and a load where an entry in the primary group has H. Source: rules 5, step 4.
    line(rt, 743, unmatched(1, &[]))?;
    line(rt, 744, unmatched(2, &[]))?;
    line(rt, 745, unmatched(0, &[]))?;
    line(rt, 746, unmatched(1, &[misplaced]))
}

// Rule 4.
pub fn guarded(rt: &impl Print) -> io::Result<()> {
    let in_primary = primary(0, 0x1234501A);
    let in_secondary = secondary(7, 0x1234501A);
    let closed = primary(0, 0x12345018);
    for (number, segment, kind, entry, result, record) in [
        // Guarded is shown with the entry's place and no key: a fetch by the primary group, by the secondary, and with key 1 and PP 0 too; a load and a store of the page are done by it. Source: rules 5, step 5.
        (747, SEGMENT, 0, in_primary, 65, [4, 0, 998, 0]),
        (748, SEGMENT, 0, in_secondary, 65, [4, 0, 25, 7]),
        (749, 0x600C701C, 0, closed, 65, [4, 0, 998, 0]),
        (750, SEGMENT, 1, in_primary, 0, [6, 2, 998, 0]),
        (751, SEGMENT, 2, in_primary, 0, [6, 2, 998, 0]),
    ] {
        let good = page_shows(segment, kind, &[entry], result, record);
        line(rt, number, good)?;
    }
    Ok(())
}
