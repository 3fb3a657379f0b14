// Blocks: the lengths of Table 7-7, the protection of Tables 7-8 and 7-9, shapes and shared addresses.
use std::io;
use test_report::asked::Asked;
use test_report::lent::{SDR1, registers};
use test_report::line;

// The numbers of a pair's two words in a register page: of the first data pair and of the first instruction pair.
const DATA: [u8; 2] = [25, 26];

const INSTRUCTION: [u8; 2] = [17, 18];

// A register page whose first instruction pair and first data pair are alike.
fn blocks(upper: u32, lower: u32) -> [u8; 132] {
    registers(&[
        (0, SDR1),
        (17, upper),
        (18, lower),
        (25, upper),
        (26, lower),
    ])
}

// A register page with this pair alone.
fn with_pair(pair: [u8; 2], upper: u32, lower: u32) -> [u8; 132] {
    registers(&[(0, SDR1), (pair[0], upper), (pair[1], lower)])
}

// Whether a fetch and a load by this register page answer these three words first, by a table of zeros; both are the supervisor's.
fn fetch_is(page: [u8; 132], address: u32, three: [u32; 3]) -> bool {
    Asked::byte(2, 0, address).answers_without_entry(page, three)
}

fn load_is(page: [u8; 132], address: u32, three: [u32; 3]) -> bool {
    Asked::byte(1, 1, address).answers_without_entry(page, three)
}

// Whether a block at 80000000 ends at its last address, on both sides: the next address and the one before it meet no match.
fn ends(bl: u32, last: u32, physical: u32, next: u32) -> bool {
    let page = blocks(0x80000002 | (bl << 2), 0x10000002);
    load_is(page, 0x80000000, [0, 0x10000000, 0])
        && Asked::byte(1, 2, last).answers_without_entry(page, [0, physical, 0])
        && fetch_is(page, last, [0, physical, 0])
        && load_is(page, next, [64, 0x40000000, 0x300])
        && fetch_is(page, next, [65, 0x40000000, 0x400])
        && load_is(page, 0x7FFFFFFF, [64, 0x40000000, 0x300])
}

// The twelve lengths: BL, the last address and its physical one, and the next address.
pub fn lengths(rt: &impl Print) -> io::Result<()> {
    for (number, bl, last, physical, next) in [
        // Block lengths of 128 Kbytes to 256 Mbytes: the first and last address are in, the next and the one before are not. Source: the manual, Table 7-7, BL.
        (67, 0x000, 0x8001FFFF, 0x1001FFFF, 0x80020000),
        (68, 0x001, 0x8003FFFF, 0x1003FFFF, 0x80040000),
        (69, 0x003, 0x8007FFFF, 0x1007FFFF, 0x80080000),
        (70, 0x007, 0x800FFFFF, 0x100FFFFF, 0x80100000),
        (71, 0x00F, 0x801FFFFF, 0x101FFFFF, 0x80200000),
        (72, 0x01F, 0x803FFFFF, 0x103FFFFF, 0x80400000),
        (73, 0x03F, 0x807FFFFF, 0x107FFFFF, 0x80800000),
        (74, 0x07F, 0x80FFFFFF, 0x10FFFFFF, 0x81000000),
        (75, 0x0FF, 0x81FFFFFF, 0x11FFFFFF, 0x82000000),
        (76, 0x1FF, 0x83FFFFFF, 0x13FFFFFF, 0x84000000),
        (77, 0x3FF, 0x87FFFFFF, 0x17FFFFFF, 0x88000000),
        (78, 0x7FF, 0x8FFFFFFF, 0x1FFFFFFF, 0x90000000),
    ] {
        line(rt, number, ends(bl, last, physical, next))?;
    }
    Ok(())
}

// The attributes of a block's WIMG; W and I are not both one: the lower word's bits, and the attributes.
pub fn attributes(rt: &impl Print) -> io::Result<()> {
    for (number, bits, third) in [
        // Block attributes: WIMG 0 to 11 of a data block, 0, 2, 4 and 6 of an instruction block. Source: rules 5, step 2.
        (79, 0x00, 0),
        (80, 0x08, 1),
        (81, 0x10, 2),
        (82, 0x18, 3),
        (83, 0x20, 4),
        (84, 0x28, 5),
        (85, 0x30, 6),
        (86, 0x38, 7),
        (87, 0x40, 8),
        (88, 0x48, 9),
        (89, 0x50, 10),
        (90, 0x58, 11),
    ] {
        let page = with_pair(DATA, 0x80000002, 0x10000002 | bits);
        let good = load_is(page, 0x80000123, [0, 0x10000123, third]);
        line(rt, number, good)?;
    }
    for (number, lower, third) in [
        (91, 0x10000002, 0),
        (92, 0x10000012, 2),
        (93, 0x10000022, 4),
        (94, 0x10000032, 6),
    ] {
        let page = blocks(0x80000002, lower);
        let good = fetch_is(page, 0x80000123, [0, 0x10000123, third]);
        line(rt, number, good)?;
    }
    Ok(())
}

// Table 7-8, in a block at 80000000, by the supervisor: PP, kind, and the three words.
pub fn protection(rt: &impl Print) -> io::Result<()> {
    for (number, pp, kind, res, word, third) in [
        // Block protection, PP 00, 01, 10, 11, each by fetch, load and store. Source: the manual, Table 7-8.
        (95, 0, 0, 65, 0x08000000, 0x400),
        (96, 0, 1, 64, 0x08000000, 0x300),
        (97, 0, 2, 64, 0x0A000000, 0x300),
        (98, 1, 0, 0, 0x10000123, 0x000),
        (99, 1, 1, 0, 0x10000123, 0x000),
        (100, 1, 2, 64, 0x0A000000, 0x300),
        (101, 2, 0, 0, 0x10000123, 0x000),
        (102, 2, 1, 0, 0x10000123, 0x000),
        (103, 2, 2, 0, 0x10000123, 0x000),
        (104, 3, 0, 0, 0x10000123, 0x000),
        (105, 3, 1, 0, 0x10000123, 0x000),
        (106, 3, 2, 64, 0x0A000000, 0x300),
    ] {
        let page = blocks(0x80000003, 0x10000000 | pp);
        let mode = if kind == 0 { 2 } else { 1 };
        let asked = Asked::byte(mode, kind, 0x80000123);
        let good = asked.answers_without_entry(page, [res, word, third]);
        line(rt, number, good)?;
    }
    Ok(())
}

// Whether a data access in a block is done where the word is 0, else faults with it.
fn meets(page: [u8; 132], mode: u32, kind: u32, word: u32) -> bool {
    let three = match word {
        0 => [0, 0x10000123, 0],
        _ => [64, word, 0x300],
    };
    Asked::byte(mode, kind, 0x80000123).answers_without_entry(page, three)
}

// Table 7-9; where the block is not used, the empty table has no match: Vs and Vp, PP, and the words of a user's read and write and of the supervisor's.
pub fn summary(rt: &impl Print) -> io::Result<()> {
    for (number, valid, pp, words) in [
        // Block protection by Vs, Vp and PP for user and supervisor, read and write; "not used" goes to the page table. Source: the manual, Table 7-9.
        (107, 0, 0, [0x40000000, 0x42000000, 0x40000000, 0x42000000]),
        (108, 0, 1, [0x40000000, 0x42000000, 0x40000000, 0x42000000]),
        (109, 0, 2, [0x40000000, 0x42000000, 0x40000000, 0x42000000]),
        (110, 0, 3, [0x40000000, 0x42000000, 0x40000000, 0x42000000]),
        (111, 1, 0, [0x08000000, 0x0A000000, 0x40000000, 0x42000000]),
        (112, 1, 1, [0x00000000, 0x0A000000, 0x40000000, 0x42000000]),
        (113, 1, 2, [0x00000000, 0x00000000, 0x40000000, 0x42000000]),
        (114, 1, 3, [0x00000000, 0x0A000000, 0x40000000, 0x42000000]),
        (115, 2, 0, [0x40000000, 0x42000000, 0x08000000, 0x0A000000]),
        (116, 2, 1, [0x40000000, 0x42000000, 0x00000000, 0x0A000000]),
        (117, 2, 2, [0x40000000, 0x42000000, 0x00000000, 0x00000000]),
        (118, 2, 3, [0x40000000, 0x42000000, 0x00000000, 0x0A000000]),
        (119, 3, 0, [0x08000000, 0x0A000000, 0x08000000, 0x0A000000]),
        (120, 3, 1, [0x00000000, 0x0A000000, 0x00000000, 0x0A000000]),
        (121, 3, 2, [0x00000000, 0x00000000, 0x00000000, 0x00000000]),
        (122, 3, 3, [0x00000000, 0x0A000000, 0x00000000, 0x0A000000]),
    ] {
        let page = blocks(0x80000000 | valid, 0x10000000 | pp);
        let [user_read, user_write, read, write] = words;
        let user = meets(page, 5, 1, user_read) && meets(page, 5, 2, user_write);
        let supervisor = meets(page, 1, 1, read) && meets(page, 1, 2, write);
        line(rt, number, user && supervisor)?;
    }
    Ok(())
}

// A case of a check: its number, a pair and its two words, and the number of the check of a page with this pair.
type Shape = (u64, [u8; 2], u32, u32, u32);

// Writes the lines of such cases.
fn lines(rt: &impl Print, shapes: &[Shape]) -> io::Result<()> {
    for (number, pair, upper, lower, expected) in shapes {
        let page = with_pair(*pair, *upper, *lower);
        line(rt, *number, mmu::mmu_check(&page) == *expected)?;
    }
    Ok(())
}

// Reserved bits.
pub fn reserved(rt: &impl Print) -> io::Result<()> {
    let rows = [
        // Block shape: each reserved bit of the upper word (15 to 18) and of the lower word (15 to 24, 29) is refused 3. Source: rules 3.
        (123, DATA, 0x80010002, 0x10000002, 3),
        (124, DATA, 0x80008002, 0x10000002, 3),
        (125, DATA, 0x80004002, 0x10000002, 3),
        (126, DATA, 0x80002002, 0x10000002, 3),
        (127, INSTRUCTION, 0x80000001, 0x10010002, 3),
        (128, INSTRUCTION, 0x80000001, 0x10008002, 3),
        (129, INSTRUCTION, 0x80000001, 0x10004002, 3),
        (130, INSTRUCTION, 0x80000001, 0x10002002, 3),
        (131, INSTRUCTION, 0x80000001, 0x10001002, 3),
        (132, INSTRUCTION, 0x80000001, 0x10000802, 3),
        (133, INSTRUCTION, 0x80000001, 0x10000402, 3),
        (134, INSTRUCTION, 0x80000001, 0x10000202, 3),
        (135, INSTRUCTION, 0x80000001, 0x10000102, 3),
        (136, INSTRUCTION, 0x80000001, 0x10000082, 3),
        (137, INSTRUCTION, 0x80000001, 0x10000006, 3),
    ];
    lines(rt, &rows)
}

// The other rules of a block's shape.
pub fn shapes(rt: &impl Print) -> io::Result<()> {
    let rows = [
        // Block shape: BL with a zero below a one (4, 5, 0x400, 0x7FE); a BEPI bit and a BRPN bit under BL. Source: rules 3.
        (138, DATA, 0x80000012, 0x10000002, 3),
        (139, DATA, 0x80000016, 0x10000002, 3),
        (140, INSTRUCTION, 0x80001002, 0x10000002, 3),
        (141, INSTRUCTION, 0x80001FFA, 0x10000002, 3),
        (142, DATA, 0x80020006, 0x10000002, 3),
        (143, DATA, 0x80000006, 0x10020002, 3),
        // Block shape: W and I; W or G of an instruction block; W or G of a data block is taken. Source: rules 3.
        (144, DATA, 0x80000002, 0x10000062, 3),
        (145, INSTRUCTION, 0x80000002, 0x10000062, 3),
        (146, INSTRUCTION, 0x80000002, 0x10000042, 3),
        (147, INSTRUCTION, 0x80000002, 0x1000000A, 3),
        (148, DATA, 0x80000002, 0x1000004A, 0),
        (149, INSTRUCTION, 0x80000002, 0x10000032, 0),
        // A pair with Vs and Vp 0 is off and may hold anything else, on both sides. Source: rules 3.
        (150, DATA, 0xFFFFFFFC, 0xFFFFFFFF, 0),
        (151, INSTRUCTION, 0xFFFFFFFC, 0xFFFFFFFF, 0),
    ];
    lines(rt, &rows)
}

// Two blocks, each by the number and the value of its upper word, and the number of a check.
pub fn shared(rt: &impl Print) -> io::Result<()> {
    for (number, one, upper, other, other_upper, expected) in [
        // Two blocks of a side with an address and a V bit in common are refused 4: equal, within, with Vp only, in the last pairs, of instructions. Source: rules 7.
        (152, 25, 0x80000002, 27, 0x80000002, 4),
        (153, 25, 0x80001FFE, 27, 0x8FFE0002, 4),
        (154, 25, 0x8FFE0002, 27, 0x80001FFE, 4),
        (155, 25, 0x80000001, 27, 0x80000003, 4),
        (156, 29, 0x80000002, 31, 0x80000006, 4),
        (157, 25, 0x80000002, 31, 0x80000006, 4),
        (158, 17, 0x80000002, 23, 0x80000006, 4),
        // Not refused: neighbours, no V bit in common, one of them off, one of each side. Source: rules 7.
        (159, 25, 0x80001FFE, 27, 0x90000002, 0),
        (160, 25, 0x80000002, 27, 0x80020002, 0),
        (161, 25, 0x80000002, 27, 0x80000001, 0),
        (162, 25, 0x80000002, 27, 0x80000000, 0),
        (163, 17, 0x80000002, 25, 0x80000002, 0),
    ] {
        let page: [u8; 132] = registers(&[(0, SDR1), (one, upper), (other, other_upper)]);
        line(rt, number, mmu::mmu_check(&page) == expected)?;
    }
    Ok(())
}
