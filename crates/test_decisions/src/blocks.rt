// Blocks: rule 1 and the block's number on its own side, whether its PP allows the access or not.
use super::shown::{ADDRESS, contradicting, covered, shows};
use std::io;
use test_report::asked::Asked;
use test_report::lent::{SDR1, SEGMENT, registers};
use test_report::line;

// The instruction pairs 0 to 3 at 80000000, 90000000, A0000000 and B0000000, 128 Kbytes each, with one lower word, and the data pairs 0 to 3 at the
// same addresses the other way round.
fn both_sides(lower: u32) -> [u8; 132] {
    registers(&[
        (0, SDR1),
        (1, SEGMENT),
        (17, 0x80000003),
        (18, lower),
        (19, 0x90000003),
        (20, lower),
        (21, 0xA0000003),
        (22, lower),
        (23, 0xB0000003),
        (24, lower),
        (25, 0xB0000003),
        (26, lower),
        (27, 0xA0000003),
        (28, lower),
        (29, 0x90000003),
        (30, lower),
        (31, 0x80000003),
        (32, lower),
    ])
}

// Whether an access to one byte of an empty table is shown as decided by this block.
fn by_block(page: [u8; 132], asked: Asked, res: u32, block: u32) -> bool {
    shows(page, asked, &[], res, [1, block, 0, 0])
}

// Each pair.
pub fn pairs(rt: &impl Print) -> io::Result<()> {
    for (number, pp, kind, address, result, block) in [
        // A block is shown by its number on the instruction side, 0 to 3: fetches by each pair. Source: rules 5, step 2.
        (752, 2, 0, 0x80000000, 0, 0),
        (753, 2, 0, 0x90000000, 0, 1),
        (754, 2, 0, 0xA0000000, 0, 2),
        (755, 2, 0, 0xB0000000, 0, 3),
        // A block is shown by its number on the data side, 0 to 3: loads by each pair, at the same addresses the other way round. Source: rules 5, step 2.
        (756, 2, 1, 0xB0000000, 0, 0),
        (757, 2, 1, 0xA0000000, 0, 1),
        (758, 2, 1, 0x90000000, 0, 2),
        (759, 2, 1, 0x80000000, 0, 3),
        // A block's protection fault is shown as the block too: a fetch and a load of PP 0, stores of PP 1 and 3. Source: rules 5, step 2.
        (760, 0, 0, 0x90000000, 65, 1),
        (761, 0, 1, 0x80000000, 64, 3),
        (762, 1, 2, 0xB0000000, 64, 0),
        (763, 3, 2, 0xA0000000, 64, 1),
    ] {
        let page = both_sides(0x10000000 | pp);
        let asked = Asked::byte(3, kind, address);
        line(rt, number, by_block(page, asked, result, block))?;
    }
    Ok(())
}

// Blocks that share an address and no V bit.
pub fn one_address(rt: &impl Print) -> io::Result<()> {
    let page = registers(&[
        (0, SDR1),
        (1, SEGMENT),
        (25, 0x80000002),
        (26, 0x10000002),
        (29, 0x80000001),
        (30, 0x20000000),
    ]);
    let supervisor = Asked::byte(1, 1, 0x80000000);
    let user = Asked::byte(5, 1, 0x80000000);
    // Of two blocks at one address the one is shown that is valid: the supervisor's pair 0 by Vs, the user's pair 2, of PP 0, by Vp. Source: rules 5, step 2.
    line(rt, 764, by_block(page, supervisor, 0, 0))?;
    line(rt, 765, by_block(page, user, 64, 2))
}

// Whether an access of this kind at the address of the cases is done by a block, though its segment has N and the page's matches contradict.
fn before_page(kind: u32, block: u32) -> bool {
    let page = covered(0x100C701C, 0x10000002);
    let asked = Asked::byte(3, kind, ADDRESS);
    shows(page, asked, &contradicting(), 0, [1, block, 0, 0])
}

// Blocks go before segment and table.
pub fn first(rt: &impl Print) -> io::Result<()> {
    // A block is shown where the segment has N and the page's matches contradict: a fetch by instruction pair 1 and a load by data pair 2. Source: rules 5, steps 2 to 4.
    line(rt, 766, before_page(0, 1))?;
    line(rt, 767, before_page(1, 2))
}
