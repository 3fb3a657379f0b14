// Block lengths of a long page, whose BL has 15 bits, and shapes that break a rule.
use super::asked::{Short, fetch, load, one};
use std::io;
use test_report::line;

// Whether the same block in the last pair of each side holds an address, at this physical one; where there is none, whether it does not.
fn holds(upper: u32, lower: u32, address: u32, physical: Option<u32>) -> bool {
    let page = one(31, upper, lower).pair(47, upper, lower);
    [fetch(address), load(address)]
        .into_iter()
        .all(|asked| match physical {
            Some(physical) => page.blocks(asked, physical, 7),
            None => page.loses(asked),
        })
}

// Lengths.
pub fn lengths(rt: &impl Print) -> io::Result<()> {
    for (number, upper, lower, address, physical) in [
        // Long page, blocks of 128 Kbytes, 256 Mbytes and 512 Mbytes in the last pair of both sides: the last address is in, the next is not. Source: request 5; rules 5, step 2.
        (955, 0x80000002, 0x10000002, 0x8001FFFF, Some(0x1001FFFF)),
        (956, 0x80000002, 0x10000002, 0x80020000, None),
        (957, 0x80001FFE, 0x10000002, 0x8FFFFFFF, Some(0x1FFFFFFF)),
        (958, 0x80001FFE, 0x10000002, 0x90000000, None),
        (959, 0x80003FFE, 0x20000002, 0x9FFFFFFF, Some(0x3FFFFFFF)),
        (960, 0x80003FFE, 0x20000002, 0xA0000000, None),
        // Long page, blocks of 1 Gbyte and 2 Gbytes: the first and the last address are in, the next and the one before are not. Source: request 5; rules 5, step 2.
        (961, 0x80007FFE, 0x40000002, 0x80000000, Some(0x40000000)),
        (962, 0x80007FFE, 0x40000002, 0xBFFFFFFF, Some(0x7FFFFFFF)),
        (963, 0x80007FFE, 0x40000002, 0xC0000000, None),
        (964, 0x8000FFFE, 0x00000002, 0xFFFFFFFF, Some(0x7FFFFFFF)),
        (965, 0x8000FFFE, 0x00000002, 0x00000000, None),
        (966, 0x8000FFFE, 0x00000002, 0x7FFFFFFF, None),
        (967, 0x0000FFFE, 0x80000002, 0x7FFFFFFF, Some(0xFFFFFFFF)),
        // Long page, a block of 4 Gbytes holds every address, at itself: the first, the last of the lower half, the first of the upper half, the last. Source: request 5; rules 5, step 2.
        (968, 0x0001FFFE, 0x00000002, 0x00000000, Some(0x00000000)),
        (969, 0x0001FFFE, 0x00000002, 0x7FFFFFFF, Some(0x7FFFFFFF)),
        (970, 0x0001FFFE, 0x00000002, 0x80000000, Some(0x80000000)),
        (971, 0x0001FFFE, 0x00000002, 0xFFFFFFFF, Some(0xFFFFFFFF)),
    ] {
        line(rt, number, holds(upper, lower, address, physical))?;
    }
    Ok(())
}

// Whether a pair is refused 3 as the first and the last of both sides.
fn broken(upper: u32, lower: u32) -> bool {
    [17, 31, 33, 47].map(|number| one(number, upper, lower).check()) == [3; 4]
}

// Shapes.
pub fn shapes(rt: &impl Print) -> io::Result<()> {
    for (number, upper, lower) in [
        // Long page, 3 in the first and the last pair of both sides: BL with a zero below a one (4000, 0800, 7FFE, 5FFF, 2). Source: request 5; rules 3.
        (972, 0x00010002, 2),
        (973, 0x00002002, 2),
        (974, 0x0001FFFA, 2),
        (975, 0x00017FFE, 2),
        (976, 0x0000000A, 2),
        // Long page, 3: a BEPI bit under BL of 2 Gbytes, and the first and the last BEPI bit under BL of 4 Gbytes. Source: request 5; rules 3.
        (977, 0x4000FFFE, 2),
        (978, 0x8001FFFE, 2),
        (979, 0x0003FFFE, 2),
        // Long page, 3: a BRPN bit under BL of 1 Gbyte, and the first and the last BRPN bit under BL of 4 Gbytes. Source: request 5; rules 3.
        (980, 0x80007FFE, 0x20000002),
        (981, 0x0001FFFE, 0x80000002),
        (982, 0x0001FFFE, 0x00020002),
        // Long page, 3: reserved bits 15, 24 and 29 of the lower word, W and I both one. Source: rules 3.
        (983, 0x00000002, 0x00010002),
        (984, 0x00000002, 0x00000082),
        (985, 0x00000002, 0x00000006),
        (986, 0x00000002, 0x00000062),
    ] {
        line(rt, number, broken(upper, lower))?;
    }
    Ok(())
}

// The numbers of a check of a short page with this upper word in the first and the last pair of both sides.
fn short_checks(upper: u32) -> [u32; 4] {
    [17, 23, 25, 31].map(|number| Short::new().pair(number, upper, 2).check())
}

// The old limit.
pub fn short_limit(rt: &impl Print) -> io::Result<()> {
    for (number, upper, refusal) in [
        // Short page, 3 in the first and the last pair of both sides: each of bits 15 to 18 where the pair is on, and BL of 512 Mbytes, 1, 2 and 4 Gbytes. Source: request 5, "the old limit in force".
        (987, 0x00010002, 3),
        (988, 0x00008001, 3),
        (989, 0x00004003, 3),
        (990, 0x00002002, 3),
        (991, 0x80003FFE, 3),
        (992, 0x80007FFE, 3),
        (993, 0x8000FFFE, 3),
        (994, 0x0001FFFE, 3),
        // Short page, taken: each of bits 15 to 18 where the pair is off, and all of them. Source: rules 3, "A pair with Vs and Vp both zero is off".
        (995, 0x00010000, 0),
        (996, 0x00008000, 0),
        (997, 0x00004000, 0),
        (998, 0x00002000, 0),
        (999, 0xFFFFFFFC, 0),
    ] {
        line(rt, number, short_checks(upper) == [refusal; 4])?;
    }
    Ok(())
}
