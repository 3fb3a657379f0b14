// Accesses that another's emulator performed: the lines of qemu-970-fetch.txt. All have SDR1 02000000, sixteen equal segment registers, no
// block, and one entry 86380E00 at entry 0 of group 319; the fetch is at 30123F40. Attributes cannot be seen there.
use super::recorded::is_recorded;
use std::io;
use test_report::asked::Asked;
use test_report::lent::{Entry, registers, table_with};
use test_report::line;

// A table with the entry's second word.
fn with_entry(second: u32) -> [u8; 65536] {
    table_with(&[Entry::new(319, 0, 0x86380E00, second)])
}

// Whether a fetch by this word of segment 3, which the address names, and this second word answers as recorded, and leaves that second word.
fn fetch(segment: u32, mode: u32, second: u32, res: u32, word: u32, after: u32) -> bool {
    let page: [u8; 132] = registers(&[(0, 0x02000000), (4, segment)]);
    let mut table = with_entry(second);
    let mut answer = [0xAAu8; 48];
    let returned = Asked::byte(mode, 0, 0x30123F40).run(&page, &mut table, &mut answer);
    is_recorded(returned, &answer, [res, word, 0x400, 0x30123F40]) && table == with_entry(after)
}

// A line: the case's number, segment, mode and second word, and the result, the word and the second word that is left.
type Row = (u64, u32, u32, u32, u32, u32, u32);

// Writes the lines of cases.
fn lines(rt: &impl Print, rows: &[Row]) -> io::Result<()> {
    for (number, segment, mode, second, res, word, after) in rows {
        let good = fetch(*segment, *mode, *second, *res, *word, *after);
        line(rt, *number, good)?;
    }
    Ok(())
}

// Lines 1 to 16.
pub fn lines_1(rt: &impl Print) -> io::Result<()> {
    let rows = [
        // Recorded fetches on an emulated 970, ids 1 to 61, attributes not compared. Source: recording qemu-970-fetch.txt, lines 1 to 16.
        (531, 0x000C701C, 2, 0x05432011, 0, 0x05432F40, 0x05432111),
        (532, 0x000C701C, 2, 0x05432019, 65, 0x10000000, 0x05432019),
        (533, 0x400C701C, 2, 0x05432011, 0, 0x05432F40, 0x05432111),
        (534, 0x400C701C, 2, 0x05432019, 65, 0x10000000, 0x05432019),
        (535, 0x200C701C, 2, 0x05432011, 0, 0x05432F40, 0x05432111),
        (536, 0x200C701C, 2, 0x05432019, 65, 0x10000000, 0x05432019),
        (537, 0x600C701C, 2, 0x05432011, 0, 0x05432F40, 0x05432111),
        (538, 0x600C701C, 2, 0x05432019, 65, 0x10000000, 0x05432019),
        (539, 0x100C701C, 2, 0x05432011, 65, 0x10000000, 0x05432011),
        (540, 0x100C701C, 2, 0x05432019, 65, 0x10000000, 0x05432019),
        (541, 0x500C701C, 2, 0x05432011, 65, 0x10000000, 0x05432011),
        (542, 0x500C701C, 2, 0x05432019, 65, 0x10000000, 0x05432019),
        (543, 0x300C701C, 2, 0x05432011, 65, 0x10000000, 0x05432011),
        (544, 0x300C701C, 2, 0x05432019, 65, 0x10000000, 0x05432019),
        (545, 0x700C701C, 2, 0x05432011, 65, 0x10000000, 0x05432011),
        (546, 0x700C701C, 2, 0x05432019, 65, 0x10000000, 0x05432019),
    ];
    lines(rt, &rows)
}

// Lines 17 to 32.
pub fn lines_17(rt: &impl Print) -> io::Result<()> {
    let rows = [
        // Recorded fetches on an emulated 970, ids 65 to 125, attributes not compared. Source: recording qemu-970-fetch.txt, lines 17 to 32.
        (547, 0x000C701C, 6, 0x05432011, 0, 0x05432F40, 0x05432111),
        (548, 0x000C701C, 6, 0x05432019, 65, 0x10000000, 0x05432019),
        (549, 0x400C701C, 6, 0x05432011, 0, 0x05432F40, 0x05432111),
        (550, 0x400C701C, 6, 0x05432019, 65, 0x10000000, 0x05432019),
        (551, 0x200C701C, 6, 0x05432011, 0, 0x05432F40, 0x05432111),
        (552, 0x200C701C, 6, 0x05432019, 65, 0x10000000, 0x05432019),
        (553, 0x600C701C, 6, 0x05432011, 0, 0x05432F40, 0x05432111),
        (554, 0x600C701C, 6, 0x05432019, 65, 0x10000000, 0x05432019),
        (555, 0x100C701C, 6, 0x05432011, 65, 0x10000000, 0x05432011),
        (556, 0x100C701C, 6, 0x05432019, 65, 0x10000000, 0x05432019),
        (557, 0x500C701C, 6, 0x05432011, 65, 0x10000000, 0x05432011),
        (558, 0x500C701C, 6, 0x05432019, 65, 0x10000000, 0x05432019),
        (559, 0x300C701C, 6, 0x05432011, 65, 0x10000000, 0x05432011),
        (560, 0x300C701C, 6, 0x05432019, 65, 0x10000000, 0x05432019),
        (561, 0x700C701C, 6, 0x05432011, 65, 0x10000000, 0x05432011),
        (562, 0x700C701C, 6, 0x05432019, 65, 0x10000000, 0x05432019),
    ];
    lines(rt, &rows)
}

// Lines 33 to 48.
pub fn lines_33(rt: &impl Print) -> io::Result<()> {
    let rows = [
        // Recorded fetches on an emulated 970, ids 129 to 189, attributes not compared. Source: recording qemu-970-fetch.txt, lines 33 to 48.
        (563, 0x000C701C, 2, 0x05432191, 0, 0x05432F40, 0x05432191),
        (564, 0x000C701C, 2, 0x05432199, 65, 0x10000000, 0x05432199),
        (565, 0x400C701C, 2, 0x05432191, 0, 0x05432F40, 0x05432191),
        (566, 0x400C701C, 2, 0x05432199, 65, 0x10000000, 0x05432199),
        (567, 0x200C701C, 2, 0x05432191, 0, 0x05432F40, 0x05432191),
        (568, 0x200C701C, 2, 0x05432199, 65, 0x10000000, 0x05432199),
        (569, 0x600C701C, 2, 0x05432191, 0, 0x05432F40, 0x05432191),
        (570, 0x600C701C, 2, 0x05432199, 65, 0x10000000, 0x05432199),
        (571, 0x100C701C, 2, 0x05432191, 65, 0x10000000, 0x05432191),
        (572, 0x100C701C, 2, 0x05432199, 65, 0x10000000, 0x05432199),
        (573, 0x500C701C, 2, 0x05432191, 65, 0x10000000, 0x05432191),
        (574, 0x500C701C, 2, 0x05432199, 65, 0x10000000, 0x05432199),
        (575, 0x300C701C, 2, 0x05432191, 65, 0x10000000, 0x05432191),
        (576, 0x300C701C, 2, 0x05432199, 65, 0x10000000, 0x05432199),
        (577, 0x700C701C, 2, 0x05432191, 65, 0x10000000, 0x05432191),
        (578, 0x700C701C, 2, 0x05432199, 65, 0x10000000, 0x05432199),
    ];
    lines(rt, &rows)
}

// Lines 49 to 64.
pub fn lines_49(rt: &impl Print) -> io::Result<()> {
    let rows = [
        // Recorded fetches on an emulated 970, ids 193 to 253, attributes not compared. Source: recording qemu-970-fetch.txt, lines 49 to 64.
        (579, 0x000C701C, 6, 0x05432191, 0, 0x05432F40, 0x05432191),
        (580, 0x000C701C, 6, 0x05432199, 65, 0x10000000, 0x05432199),
        (581, 0x400C701C, 6, 0x05432191, 0, 0x05432F40, 0x05432191),
        (582, 0x400C701C, 6, 0x05432199, 65, 0x10000000, 0x05432199),
        (583, 0x200C701C, 6, 0x05432191, 0, 0x05432F40, 0x05432191),
        (584, 0x200C701C, 6, 0x05432199, 65, 0x10000000, 0x05432199),
        (585, 0x600C701C, 6, 0x05432191, 0, 0x05432F40, 0x05432191),
        (586, 0x600C701C, 6, 0x05432199, 65, 0x10000000, 0x05432199),
        (587, 0x100C701C, 6, 0x05432191, 65, 0x10000000, 0x05432191),
        (588, 0x100C701C, 6, 0x05432199, 65, 0x10000000, 0x05432199),
        (589, 0x500C701C, 6, 0x05432191, 65, 0x10000000, 0x05432191),
        (590, 0x500C701C, 6, 0x05432199, 65, 0x10000000, 0x05432199),
        (591, 0x300C701C, 6, 0x05432191, 65, 0x10000000, 0x05432191),
        (592, 0x300C701C, 6, 0x05432199, 65, 0x10000000, 0x05432199),
        (593, 0x700C701C, 6, 0x05432191, 65, 0x10000000, 0x05432191),
        (594, 0x700C701C, 6, 0x05432199, 65, 0x10000000, 0x05432199),
    ];
    lines(rt, &rows)
}
