// The bytes of an operand in each page, in real mode, and refusal 12 alone and in the order of refusals.
use std::io;
use test_report::asked::Asked;
use test_report::lent::Scene::{Contradicting, Empty, Mapped};
use test_report::lent::{BROKEN_2, BROKEN_3, BROKEN_4, BROKEN_5, GOOD, SDR1, SEGMENT, registers};
use test_report::line;
use test_report::refused::{Lengths, RIGHT, refused};

// Whether an access in real mode has so many bytes in its first page and so many in a second that starts here (0 and 0 where there is none).
fn real(kind: u32, address: u32, length: u32, bytes: u32, second: u32, rest: u32) -> bool {
    let asked = Asked {
        mode: 4,
        kind,
        address,
        length,
    };
    let zero = [0u8; 65536];
    let attributes = if rest == 0 { 0 } else { 3 };
    let eight = [0, address, 3, address, second, attributes, bytes, rest];
    asked.answers(registers(&[(0, SDR1), (1, SEGMENT)]), &zero, eight, &zero)
}

// Operands of several lengths around the edge at 00001000, the longest ones, and those at the last address: kind, address, length and what it has.
pub fn parts(rt: &impl Print) -> io::Result<()> {
    for (number, kind, address, length, bytes, second, rest) in [
        // Real mode, 64 bytes before a page edge, lengths 1, 63, 64, 65, 127, 128: bytes in each page, none in a second one up to 64. Source: rules 5, parts.
        (643, 1, 0x00000FC0, 1, 1, 0, 0),
        (644, 1, 0x00000FC0, 63, 63, 0, 0),
        (645, 1, 0x00000FC0, 64, 64, 0, 0),
        (646, 1, 0x00000FC0, 65, 64, 0x00001000, 1),
        (647, 1, 0x00000FC0, 127, 64, 0x00001000, 63),
        (648, 1, 0x00000FC0, 128, 64, 0x00001000, 64),
        // Real mode, one byte before the edge and one after it, by load, store and fetch. Source: rules 5, parts and step 1.
        (649, 1, 0x00000FFF, 2, 1, 0x00001000, 1),
        (650, 2, 0x00000FFF, 2, 1, 0x00001000, 1),
        (651, 0, 0x00000FFF, 2, 1, 0x00001000, 1),
        // Real mode, 128 bytes from a page's first byte, up to its last one, one byte past it, and from its last one. Source: rules 5, parts.
        (652, 2, 0x12345000, 128, 128, 0, 0),
        (653, 2, 0x12345F80, 128, 128, 0, 0),
        (654, 2, 0x12345F81, 128, 127, 0x12346000, 1),
        (655, 2, 0x12345FFF, 128, 1, 0x12346000, 127),
        // Real mode, the address after FFFFFFFF is 00000000: operands that end at FFFFFFFF and that go on. Source: rules 5, parts.
        (656, 1, 0xFFFFFFFF, 1, 1, 0, 0),
        (657, 1, 0xFFFFFF80, 128, 128, 0, 0),
        (658, 1, 0xFFFFFFFF, 2, 1, 0, 1),
        (659, 0, 0xFFFFFFFD, 128, 3, 0, 125),
    ] {
        let good = real(kind, address, length, bytes, second, rest);
        line(rt, number, good)?;
    }
    Ok(())
}

// An access to the bytes from 00FFA01B on.
fn asked(mode: u32, kind: u32, length: u32) -> Asked {
    Asked {
        mode,
        kind,
        address: 0x00FFA01B,
        length,
    }
}

// Refusal 12 with all else right: mode, kind and length.
pub fn refused_alone(rt: &impl Print) -> io::Result<()> {
    for (number, mode, kind, length) in [
        // Access: 12 for no byte and for 129, 130, 255, 256, 257, 80000001 and FFFFFFFF bytes, in real mode and translated. Source: rules 7.
        (660, 0, 1, 0),
        (661, 1, 2, 0),
        (662, 0, 0, 129),
        (663, 1, 1, 129),
        (664, 1, 1, 130),
        (665, 1, 2, 255),
        (666, 3, 0, 256),
        (667, 1, 1, 257),
        (668, 4, 2, 0x80000001),
        (669, 7, 1, 0xFFFFFFFF),
    ] {
        let result = refused(Mapped, RIGHT, asked(mode, kind, length), GOOD);
        line(rt, number, result == Some(12))?;
    }
    Ok(())
}

// 12 and another rule: the table and the lengths that are lent, mode, kind and length, the words of the register page, and the number.
pub fn refused_in_order(rt: &impl Print) -> io::Result<()> {
    let short_page = Lengths::with_page(131);
    let short_answer = Lengths::with_answer(47);
    let short_table = Lengths::with_table(65535);
    for (number, scene, lengths, mode, kind, length, four, expected) in [
        // Access: 11 (page, answer) and 6 (mode, kind) before 12. Source: rules 7.
        (670, Mapped, short_page, 1, 1, 0, GOOD, 11),
        (671, Mapped, short_answer, 1, 1, 129, GOOD, 11),
        (672, Mapped, RIGHT, 8, 1, 0, GOOD, 6),
        (673, Mapped, RIGHT, 1, 3, 129, GOOD, 6),
        // Access: 12 before 2, 3, 4, 5, 1, 10 and a fault. Source: rules 7.
        (674, Mapped, RIGHT, 1, 1, 0, BROKEN_2, 12),
        (675, Mapped, RIGHT, 1, 1, 0, BROKEN_3, 12),
        (676, Mapped, RIGHT, 1, 1, 0, BROKEN_4, 12),
        (677, Mapped, RIGHT, 1, 1, 0, BROKEN_5, 12),
        (678, Mapped, short_table, 1, 1, 129, GOOD, 12),
        (679, Contradicting, RIGHT, 1, 1, 129, GOOD, 12),
        (680, Empty, RIGHT, 1, 1, 0, GOOD, 12),
    ] {
        let result = refused(scene, lengths, asked(mode, kind, length), four);
        line(rt, number, result == Some(expected))?;
    }
    Ok(())
}
