// Two blocks of one side of a long page: 4 is tested among all eight.
use super::asked::{one, two};
use super::pairs::sixteen;
use std::io;
use test_report::line;

// Two of eight pairs.
pub fn two_of_eight(rt: &impl Print) -> io::Result<()> {
    for (number, pair, other, refusal) in [
        // Long page, 4: two blocks at one address: instruction pairs 3 and 4, 0 and 7, 6 and 7, 4 and 5; data pairs 3 and 4, 0 and 7, 6 and 7, 4 and 5. Source: request 5; rules 7.
        (1000, 23, 25, 4),
        (1001, 17, 31, 4),
        (1002, 29, 31, 4),
        (1003, 25, 27, 4),
        (1004, 39, 41, 4),
        (1005, 33, 47, 4),
        (1006, 45, 47, 4),
        (1007, 41, 43, 4),
        // Long page, taken: an instruction and a data block at one address, in pairs 7 and 0, 4 and 4. Source: rules 7.
        (1008, 31, 33, 0),
        (1009, 25, 41, 0),
    ] {
        let page = two(pair, 0x80000002, other, 0x80000003);
        line(rt, number, page.check() == refusal)?;
    }
    Ok(())
}

// Parts of addresses.
pub fn within(rt: &impl Print) -> io::Result<()> {
    for (number, page, refusal) in [
        // Long page, 4: pair 4 within pair 3, pair 3 within pair 4, pair 7 in the upper half of pair 0's 2 Gbytes. Source: request 5; rules 7.
        (1010, two(39, 0x80007FFE, 41, 0xBFFE0002), 4),
        (1011, two(23, 0xBFFE0002, 25, 0x80007FFE), 4),
        (1012, two(33, 0x0000FFFD, 47, 0x7FFE0001), 4),
        // Long page, taken: neighbours in pairs 3 and 4, 2 Gbytes each in pairs 0 and 7; no V bit in common; one of them off; sixteen blocks one after the other. Source: rules 7.
        (1013, two(39, 0x80007FFE, 41, 0xC0000002), 0),
        (1014, two(17, 0x0000FFFF, 31, 0x8000FFFF), 0),
        (1015, two(39, 0x80007FFE, 41, 0x80007FFD), 0),
        (1016, two(39, 0x80007FFE, 41, 0x80007FFC), 0),
        (1017, sixteen(), 0),
    ] {
        line(rt, number, page.check() == refusal)?;
    }
    Ok(())
}

// 4 Gbytes.
pub fn all_addresses(rt: &impl Print) -> io::Result<()> {
    for (number, pair, other, upper, refusal) in [
        // Long page, 4: a block of 4 Gbytes with any other block of its side and V bit: at 0, at the last address, in pairs 7 and 0, in pairs 3 and 4, of 2 Gbytes, of 4 Gbytes. Source: request 5; rules 7.
        (1018, 33, 47, 0x00000002, 4),
        (1019, 33, 47, 0xFFFE0003, 4),
        (1020, 47, 33, 0x80000002, 4),
        (1021, 23, 25, 0x40000003, 4),
        (1022, 17, 31, 0x8000FFFE, 4),
        (1023, 31, 17, 0x0001FFFF, 4),
        // Long page, taken: with a block of the other V bit, of the other side, one that is off. Source: rules 7.
        (1024, 33, 47, 0xFFFE0001, 0),
        (1025, 33, 35, 0x0001FFFD, 0),
        (1026, 33, 31, 0x0001FFFF, 0),
        (1027, 33, 47, 0x0001FFFC, 0),
    ] {
        let page = two(pair, 0x0001FFFE, other, upper);
        line(rt, number, page.check() == refusal)?;
    }
    Ok(())
}

// Pairs 4 to 7 that are off.
pub fn off(rt: &impl Print) -> io::Result<()> {
    let junk = one(31, 0xFFFFFFFC, 0xFFFFFFFF).pair(47, 0xFFFFFFFC, 0xFFFFFFFF);
    let broken = two(33, 0x80000002, 35, 0x80000002).pair(47, 0x0000000A, 2);
    // Long page: the last pairs may hold anything where they are off; 3 before 4, 3 in pair 7 and 4 in pairs 0 and 1. Source: rules 3 and 7.
    line(rt, 1028, junk.check() == 0)?;
    line(rt, 1029, broken.check() == 3)
}
