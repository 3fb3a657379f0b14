// Where the sixteen pairs of a long page stand, and how they are counted.
use super::asked::{Long, Short, fetch, load, one};
use std::io;
use test_report::line;

// Sixteen blocks of 128 Kbytes, one after the other: instruction pairs 0 to 7 at words 17 to 32, from 80000000 on, at 10000000, and data pairs 0 to 7 at
// words 33 to 48, from A0000000 on, at 20000000.
pub fn sixteen() -> Long {
    let mut page = Long::new();
    for pair in 0..8u8 {
        let from = 0x20000 * u32::from(pair);
        page = page
            .pair(17 + 2 * pair, 0x80000003 + from, 0x10000002 + from)
            .pair(33 + 2 * pair, 0xA0000003 + from, 0x20000002 + from);
    }
    page
}

// Instruction pairs.
pub fn instruction(rt: &impl Print) -> io::Result<()> {
    // Long page, sixteen blocks: a fetch by each instruction pair, words 17 to 32, is shown by the pair's number, 0 to 7. Source: request 5; rules 5.
    for (number, address, physical, pair) in [
        (929, 0x80000000, 0x10000000, 0),
        (930, 0x80020001, 0x10020001, 1),
        (931, 0x80040002, 0x10040002, 2),
        (932, 0x80060003, 0x10060003, 3),
        (933, 0x80080004, 0x10080004, 4),
        (934, 0x800A0005, 0x100A0005, 5),
        (935, 0x800C0006, 0x100C0006, 6),
        (936, 0x800FFFFF, 0x100FFFFF, 7),
    ] {
        let good = sixteen().blocks(fetch(address), physical, pair);
        line(rt, number, good)?;
    }
    Ok(())
}

// Data pairs.
pub fn data(rt: &impl Print) -> io::Result<()> {
    // Long page, sixteen blocks: a load by each data pair, words 33 to 48, is shown by the pair's number, 0 to 7. Source: request 5; rules 5.
    for (number, address, physical, pair) in [
        (937, 0xA0000000, 0x20000000, 0),
        (938, 0xA0020001, 0x20020001, 1),
        (939, 0xA0040002, 0x20040002, 2),
        (940, 0xA0060003, 0x20060003, 3),
        (941, 0xA0080004, 0x20080004, 4),
        (942, 0xA00A0005, 0x200A0005, 5),
        (943, 0xA00C0006, 0x200C0006, 6),
        (944, 0xA00FFFFF, 0x200FFFFF, 7),
    ] {
        let good = sixteen().blocks(load(address), physical, pair);
        line(rt, number, good)?;
    }
    Ok(())
}

// Addresses that no block of the side holds.
pub fn outside(rt: &impl Print) -> io::Result<()> {
    // Long page, sixteen blocks: the addresses before the first and after the eighth, and those of the other side, meet no match. Source: request 5; rules 5.
    for (number, asked) in [
        (945, fetch(0x7FFFFFFF)),
        (946, fetch(0x80100000)),
        (947, fetch(0xA00E0000)),
        (948, load(0x9FFFFFFF)),
        (949, load(0xA0100000)),
        (950, load(0x800E0000)),
    ] {
        line(rt, number, sixteen().loses(asked))?;
    }
    Ok(())
}

// The same words on both pages.
pub fn word_25(rt: &impl Print) -> io::Result<()> {
    let long = one(25, 0xB0000003, 0x10000002);
    let short = Short::new().pair(25, 0xB0000003, 0x10000002);
    // Words 25 and 26 are data pair 0 on a short page and instruction pair 4 on a long one: load and fetch on the short page, load and fetch on the long one. Source: request 5; rules 3.
    line(rt, 951, short.blocks(load(0xB0001234), 0x10001234, 0))?;
    line(rt, 952, short.loses(fetch(0xB0001234)))?;
    line(rt, 953, long.loses(load(0xB0001234)))?;
    line(rt, 954, long.blocks(fetch(0xB0001234), 0x10001234, 4))
}
