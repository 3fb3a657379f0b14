// Accesses that real mode or a block decides, which mark nothing, and matches that contradict.
use super::asked::{ADDRESS, CONTRADICTED, done, done_by, no_data, no_fetch, tells, tells_at};
use std::io;
use test_report::lent::{Entry, SDR1, SEGMENT, registers};
use test_report::line;

// Each kind by its own relocation bit, IR for a fetch and DR for data.
pub fn real_mode(rt: &impl Print) -> io::Result<()> {
    let page = registers(&[(0, SDR1), (1, SEGMENT)]);
    let entry = Entry::of_page(0x12345012);
    let real = done_by(0, ADDRESS, 3);
    let read = done(2, 2, 998, 0, 0x100);
    let written = done(2, 2, 998, 0, 0x180);
    for (number, mode, told) in [
        // Neither; IR alone; DR alone. Source: rules 5, steps 1 and 7.
        (1195, 0, [real, real, real]),
        (1196, 2, [read, real, real]),
        (1197, 1, [real, read, written]),
    ] {
        line(rt, number, tells_at(page, mode, ADDRESS, &[entry], told))?;
    }
    Ok(())
}

// A register page with segment register 0 as in the cases and pair 0 of each side.
fn with_pairs(instruction: [u32; 2], data: [u32; 2]) -> [u8; 132] {
    registers(&[
        (0, SDR1),
        (1, SEGMENT),
        (17, instruction[0]),
        (18, instruction[1]),
        (25, data[0]),
        (26, data[1]),
    ])
}

// Each kind by the blocks of its own side.
pub fn blocks(rt: &impl Print) -> io::Result<()> {
    // A block of each side at 80000000, to 10000000 and 20000000. Source: rules 5, step 2.
    let fetch = done_by(1, 0x10000ABC, 0);
    let data = done_by(1, 0x20000ABC, 2);
    let open = with_pairs([0x80000003, 0x10000002], [0x80000003, 0x20000012]);
    // The data block's PP is 1; both have PP 0. Source: rules 5, step 2.
    let record = [1, 0, 0, 0];
    let store = no_data(0x0A000000, record);
    let read_only = with_pairs([0x80000003, 0x10000002], [0x80000003, 0x20000011]);
    let shut = with_pairs([0x80000003, 0x10000000], [0x80000003, 0x20000010]);
    let no_fetch = no_fetch(0x08000000, record);
    let no_load = no_data(0x08000000, record);
    for (number, page, told) in [
        (1198, open, [fetch, data, data]),
        (1199, read_only, [fetch, data, store]),
        (1200, shut, [no_fetch, no_load, store]),
    ] {
        line(rt, number, tells_at(page, 3, 0x80000ABC, &[], told))?;
    }
    Ok(())
}

// A data block over the page of the cases.
pub fn before_page(rt: &impl Print) -> io::Result<()> {
    let page = with_pairs([0, 0], [0x00FE0003, 0x10000002]);
    let entry = Entry::of_page(0x12345012);
    let data = done_by(1, 0x1001AABC, 0);
    let told = [done(2, 2, 998, 0, 0x100), data, data];
    // A data block of 128 Kbytes at 00FE0000 goes before the page, which a fetch alone would mark. Source: rules 5, steps 2 and 7.
    line(rt, 1201, tells_at(page, 3, ADDRESS, &[entry], told))
}

// Contradicting matches are told of each access that reaches the search, and the call is done.
pub fn contradictions(rt: &impl Print) -> io::Result<()> {
    let two = [
        Entry::of_page(0x12345012),
        Entry {
            entry: 1,
            ..Entry::of_page(0x12346012)
        },
    ];
    let no_fetch = no_fetch(0x10000000, [2, 0, 0, 0]);
    let told = [no_fetch, CONTRADICTED, CONTRADICTED];
    // Another frame; the same where the segment's N stops a fetch before. Source: rules 5, steps 3 and 4.
    line(rt, 1202, tells(SEGMENT, &two, [CONTRADICTED; 3]))?;
    line(rt, 1203, tells(0x100C701C, &two, told))
}
