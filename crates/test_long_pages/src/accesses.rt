// Accesses with a long page: who may use its blocks, what refuses them, and pages and operands beside its blocks.
use super::asked::{Long, Short, load, one, two};
use super::pairs::sixteen;
use std::io;
use test_report::asked::Asked;
use test_report::lent::{BAD_SDR1, Entry, table_with};
use test_report::line;

// The address of the eighth data block of `sixteen`.
const EIGHTH: u32 = 0xA00E0000;

// Rights of pairs 4 to 7.
pub fn rights(rt: &impl Print) -> io::Result<()> {
    let read_only = sixteen().with(48, 0x20000001);
    let nothing = sixteen().with(48, 0x20000000);
    let store = Asked::byte(3, 2, EIGHTH);
    let fault = [64, 0x0A000000, 0x300, EIGHTH, 0, 0, 0, 0, 1, 7, 0, 0];
    let no_load = [64, 0x08000000, 0x300, EIGHTH, 0, 0, 0, 0, 1, 7, 0, 0];
    // Long page, the eighth data block: PP 1, a load and a store; PP 0, a load. Source: rules 5, step 2.
    line(rt, 1058, read_only.blocks(load(EIGHTH), 0x20000000, 7))?;
    line(rt, 1059, read_only.answers(store, fault))?;
    line(rt, 1060, nothing.answers(load(EIGHTH), no_load))?;
    // Long page, the eighth data block is the supervisor's, by Vs: a load of the supervisor and one of the user. Source: rules 5, step 2.
    let supervisor = sixteen().with(47, 0xA00E0002);
    line(rt, 1061, supervisor.blocks(load(EIGHTH), 0x200E0000, 7))?;
    line(rt, 1062, supervisor.loses(Asked::byte(7, 1, EIGHTH)))
}

// Real mode and refusals.
pub fn refusals(rt: &impl Print) -> io::Result<()> {
    let asked = Asked::byte(0, 1, EIGHTH);
    let real = [0, EIGHTH, 3, EIGHTH, 0, 0, 1, 0, 0, 0, 0, 0];
    // Long page, sixteen blocks: a load in real mode. Source: rules 5, step 1.
    line(rt, 1063, sixteen().answers(asked, real))?;
    // Long page, access in real mode: 2, 3 of pair 7, 4 of pairs 3 and 4, 4 of 4 Gbytes, 5. Source: request 5; rules 7.
    for (number, page, refusal) in [
        (1064, sixteen().with(0, BAD_SDR1), 2),
        (1065, one(47, 0x0000000A, 2), 3),
        (1066, two(23, 0x80000002, 25, 0x80000002), 4),
        (1067, two(33, 0x0001FFFE, 47, 0x80000002), 4),
        (1068, sixteen().with(16, 0x80000000), 5),
    ] {
        line(rt, number, page.refuses(asked, refusal))?;
    }
    // Short page, access in real mode: 3 for one of bits 15 to 18 in a pair that is on. Source: request 5, "the old limit in force".
    let short = Short::new().pair(31, 0x80003FFE, 2);
    line(rt, 1069, short.refuses(asked, 3))
}

// Whether a load of so many bytes, whose page 0FFA has RPN 12345, answers these words and leaves this second word there.
fn by_page(page: Long, address: u32, length: u32, twelve: [u32; 12], second: u32) -> bool {
    let asked = Asked {
        length,
        ..load(address)
    };
    let before = table_with(&[Entry::of_page(0x12345012)]);
    let after = table_with(&[Entry::of_page(second)]);
    page.marks(asked, before, twelve, after)
}

// Pages beside blocks.
pub fn beside_pages(rt: &impl Print) -> io::Result<()> {
    let all = one(47, 0x0001FFFE, 2);
    let users = one(47, 0x0001FFFD, 2);
    let page = [0, 0x1234501B, 2, 0x00FFA01B, 0, 0, 1, 0, 6, 2, 998, 0];
    let block = [0, 0x00FFA01B, 0, 0x00FFA01B, 0, 0, 1, 0, 1, 7, 0, 0];
    let edge = [
        0, 0x00FFAFFF, 0, 0x00FFAFFF, 0x00FFB000, 0, 1, 1, 1, 7, 0, 0,
    ];
    let end = [0, 0xFFFFFFFF, 0, 0xFFFFFFFF, 0, 0, 1, 1, 1, 7, 0, 0];
    for (number, registers, address, length, twelve, second) in [
        // Long page, sixteen blocks, none over page 0FFA: a load is done by the page. Source: rules 5.
        (1070, sixteen(), 0x00FFA01B, 1, page, 0x12345112),
        // Long page, a block of 4 Gbytes goes before the page, which is not marked; where it is the user's alone the supervisor's load is done by the page. Source: rules 5, step 2.
        (1071, all, 0x00FFA01B, 1, block, 0x12345012),
        (1072, users, 0x00FFA01B, 1, page, 0x12345112),
        // Long page, a block of 4 Gbytes and two bytes over a page edge, and over FFFFFFFF: it has two parts too. Source: rules 5, parts and step 2.
        (1073, all, 0x00FFAFFF, 2, edge, 0x12345012),
        (1074, all, 0xFFFFFFFF, 2, end, 0x12345012),
    ] {
        let good = by_page(registers, address, length, twelve, second);
        line(rt, number, good)?;
    }
    Ok(())
}
