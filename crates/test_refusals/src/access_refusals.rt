// Each refusal of an access to one byte, and each two that can hold together, in the order of the rules (7); 12 is in the program `operands`. A
// refusal leaves the whole table and, of the answer, the number and eleven zero words (11: the answer too).
use std::io;
use test_report::asked::Asked;
use test_report::lent::Scene::{self, Contradicting, Mapped};
use test_report::lent::{
    BAD_BLOCK, BAD_SDR1, BAD_SEGMENT, BROKEN_2, BROKEN_3, BROKEN_4, BROKEN_5, GOOD, OFF, SDR1,
    SEGMENT, SHARED,
};
use test_report::line;
use test_report::refused::{Lengths, RIGHT, refused};

// A case: its number, the table, the lengths that are lent, mode and kind, the words of the register page, and the number of the refusal.
type Row = (u64, Scene, Lengths, u32, u32, [u32; 4], u32);

// Writes the lines of cases, each an access to the byte at 00FFA01B.
fn lines(rt: &impl Print, rows: &[Row]) -> io::Result<()> {
    for (number, scene, lengths, mode, kind, four, expected) in rows {
        let asked = Asked::byte(*mode, *kind, 0x00FFA01B);
        let result = refused(*scene, *lengths, asked, *four);
        line(rt, *number, result == Some(*expected))?;
    }
    Ok(())
}

// The refusals alone.
pub fn alone(rt: &impl Print) -> io::Result<()> {
    let page_131 = Lengths::with_page(131);
    let page_136 = Lengths::with_page(136);
    let answer_47 = Lengths::with_answer(47);
    let answer_49 = Lengths::with_answer(49);
    let short = Lengths::with_table(65535);
    let long = Lengths::with_table(131072);
    let rows = [
        // Access: each refusal alone: 11 (a page of 131 and of 136 bytes, an answer of 47 and of 49), 6 (mode, kind), 2, 3, 4, 5, 1 (a table one byte short, and twice as long), 10 (load, store, fetch). Source: rules 7.
        (415, Mapped, page_131, 1, 1, GOOD, 11),
        (416, Mapped, page_136, 1, 1, GOOD, 11),
        (417, Mapped, answer_47, 1, 1, GOOD, 11),
        (418, Mapped, answer_49, 1, 1, GOOD, 11),
        (419, Mapped, RIGHT, 8, 1, GOOD, 6),
        (420, Mapped, RIGHT, 0xFFFFFFFF, 1, GOOD, 6),
        (421, Mapped, RIGHT, 1, 3, GOOD, 6),
        (422, Mapped, RIGHT, 1, 0xFFFFFFFF, GOOD, 6),
        (423, Mapped, RIGHT, 1, 1, BROKEN_2, 2),
        (424, Mapped, RIGHT, 1, 1, BROKEN_3, 3),
        (425, Mapped, RIGHT, 1, 1, BROKEN_4, 4),
        (426, Mapped, RIGHT, 1, 1, BROKEN_5, 5),
        (427, Mapped, short, 1, 1, GOOD, 1),
        (428, Mapped, long, 1, 1, GOOD, 1),
        (429, Contradicting, RIGHT, 1, 1, GOOD, 10),
        (430, Contradicting, RIGHT, 1, 2, GOOD, 10),
        (431, Contradicting, RIGHT, 2, 0, GOOD, 10),
    ];
    lines(rt, &rows)
}

// 11 and 6 before the others.
pub fn numbers_first(rt: &impl Print) -> io::Result<()> {
    let page_131 = Lengths::with_page(131);
    let page_136 = Lengths::with_page(136);
    let answer_47 = Lengths::with_answer(47);
    let answer_49 = Lengths::with_answer(49);
    let short = Lengths::with_table(65535);
    let both = Lengths { page: 131, ..short };
    let rows = [
        // Access: 11 before 6, 2, 3, 4, 5, 1, 10. Source: rules 7.
        (432, Mapped, page_131, 8, 1, GOOD, 11),
        (433, Mapped, answer_47, 1, 1, BROKEN_2, 11),
        (434, Mapped, page_131, 1, 1, BROKEN_3, 11),
        (435, Mapped, answer_49, 1, 1, BROKEN_4, 11),
        (436, Mapped, page_136, 1, 1, BROKEN_5, 11),
        (437, Mapped, both, 1, 1, GOOD, 11),
        (438, Contradicting, answer_47, 1, 1, GOOD, 11),
        // Access: 6 before 2, 3, 4, 5, 1, 10. Source: rules 7.
        (439, Mapped, RIGHT, 8, 1, BROKEN_2, 6),
        (440, Mapped, RIGHT, 1, 3, BROKEN_3, 6),
        (441, Mapped, RIGHT, 8, 1, BROKEN_4, 6),
        (442, Mapped, RIGHT, 1, 3, BROKEN_5, 6),
        (443, Mapped, short, 8, 1, GOOD, 6),
        (444, Contradicting, RIGHT, 9, 1, GOOD, 6),
    ];
    lines(rt, &rows)
}

// 2, 3, 4, 5 and 1 before those after them.
pub fn registers_next(rt: &impl Print) -> io::Result<()> {
    let two_three = [BAD_SDR1, SEGMENT, BAD_BLOCK, OFF];
    let two_four = [BAD_SDR1, SEGMENT, OFF, SHARED];
    let two_five = [BAD_SDR1, BAD_SEGMENT, OFF, OFF];
    let three_four = [SDR1, SEGMENT, BAD_BLOCK, SHARED];
    let three_five = [SDR1, BAD_SEGMENT, BAD_BLOCK, OFF];
    let four_five = [SDR1, BAD_SEGMENT, OFF, SHARED];
    let short = Lengths::with_table(65535);
    let long = Lengths::with_table(131072);
    let rows = [
        // Access: 2 before 3, 4, 5, 1, 10. Source: rules 7.
        (445, Mapped, RIGHT, 1, 1, two_three, 2),
        (446, Mapped, RIGHT, 1, 1, two_four, 2),
        (447, Mapped, RIGHT, 1, 1, two_five, 2),
        (448, Mapped, short, 1, 1, BROKEN_2, 2),
        (449, Contradicting, RIGHT, 1, 1, BROKEN_2, 2),
        // Access: 3 before 4, 5, 1, 10. Source: rules 7.
        (450, Mapped, RIGHT, 1, 1, three_four, 3),
        (451, Mapped, RIGHT, 1, 1, three_five, 3),
        (452, Mapped, short, 1, 1, BROKEN_3, 3),
        (453, Contradicting, RIGHT, 1, 1, BROKEN_3, 3),
        // Access: 4 before 5, 1, 10; 5 before 1, 10; 1 before 10. Source: rules 7.
        (454, Mapped, RIGHT, 1, 1, four_five, 4),
        (455, Mapped, short, 1, 1, BROKEN_4, 4),
        (456, Contradicting, RIGHT, 1, 1, BROKEN_4, 4),
        (457, Mapped, short, 1, 1, BROKEN_5, 5),
        (458, Contradicting, RIGHT, 1, 1, BROKEN_5, 5),
        (459, Contradicting, long, 1, 1, GOOD, 1),
    ];
    lines(rt, &rows)
}

// The register page and the table's length are judged in every mode and also where a block would do the access.
pub fn every_mode(rt: &impl Print) -> io::Result<()> {
    let short = Lengths::with_table(65535);
    let rows = [
        // Access: refusals 2, 3, 4, 5 and 1 also in real mode. Source: rules 7.
        (460, Mapped, RIGHT, 0, 1, BROKEN_2, 2),
        (461, Mapped, RIGHT, 0, 2, BROKEN_3, 3),
        (462, Mapped, RIGHT, 0, 0, BROKEN_4, 4),
        (463, Mapped, RIGHT, 4, 1, BROKEN_5, 5),
        (464, Mapped, short, 0, 1, GOOD, 1),
    ];
    lines(rt, &rows)
}

// Mode and kind past a byte.
pub fn past_a_byte(rt: &impl Print) -> io::Result<()> {
    let rows = [
        // Access: 6 for a mode and a kind of which the low byte is good (256, 257 and 80000000). Source: rules 5 and 7.
        (1223, Mapped, RIGHT, 256, 1, GOOD, 6),
        (1224, Mapped, RIGHT, 257, 1, GOOD, 6),
        (1225, Mapped, RIGHT, 0x80000000, 1, GOOD, 6),
        (1226, Mapped, RIGHT, 1, 256, GOOD, 6),
        (1227, Mapped, RIGHT, 1, 257, GOOD, 6),
        (1228, Mapped, RIGHT, 1, 0x80000000, GOOD, 6),
    ];
    lines(rt, &rows)
}
