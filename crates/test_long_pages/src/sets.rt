// Set register on pages of both lengths: which numbers there are, and which rule answers first.
use super::asked::{Long, Short, one, two};
use std::io;
use test_report::lent::BAD_SDR1;
use test_report::line;

// Numbers.
pub fn numbers(rt: &impl Print) -> io::Result<()> {
    let page = Long::new();
    // Long page: words 24, 25, 32, 33, 40, 41, 47 and 48 are replaced, and every other byte stays. Source: request 5, "words 0 to 48".
    for (number, register, word) in [
        (1030, 24, 0x12345678),
        (1031, 25, 0x80000003),
        (1032, 32, 0x12345678),
        (1033, 33, 0x0001FFFE),
        (1034, 40, 0x12345678),
        (1035, 41, 0xFFFE0001),
        (1036, 47, 0x8000FFFF),
        (1037, 48, 0xFFFFFFFF),
    ] {
        line(rt, number, page.takes(register, word))?;
    }
    // Long page: 6 for numbers 49, 50, 65 and FFFFFFFF; the page is left. Source: request 5.
    line(rt, 1038, page.refuses_word(49, 0, 6))?;
    line(rt, 1039, page.refuses_word(50, 0, 6))?;
    line(rt, 1040, page.refuses_word(65, 0, 6))?;
    line(rt, 1041, page.refuses_word(0xFFFFFFFF, 0, 6))
}

// Numbers of a short page.
pub fn short_numbers(rt: &impl Print) -> io::Result<()> {
    let page = Short::new();
    for (number, register, word, refusal) in [
        // Short page: 6 for numbers 33, 34, 40, 48 and 49; the page is left. Source: request 5, "words 0 to 32, a higher number 6".
        (1042, 33, 0, 6),
        (1043, 34, 0, 6),
        (1044, 40, 0, 6),
        (1045, 48, 0, 6),
        (1046, 49, 0, 6),
        // Short page: 3 for an upper word of 512 Mbytes and of 4 Gbytes as the first and the last; the page is left. Source: request 5, "the old limit in force".
        (1047, 17, 0x80003FFE, 3),
        (1048, 31, 0x0001FFFE, 3),
    ] {
        line(rt, number, page.refuses_word(register, word, refusal))?;
    }
    Ok(())
}

// The order of refusals.
pub fn judged(rt: &impl Print) -> io::Result<()> {
    let page = Long::new();
    let bad = page.with(0, BAD_SDR1);
    for (number, page, register, word, refusal) in [
        // Long page: 6 before 2; 2 before 3; 3 of pair 7, 4 of pairs 3 and 4, 5; the page is left. Source: rules 7.
        (1049, bad, 49, 0, 6),
        (1050, bad, 47, 0x0000000A, 2),
        (1051, page, 47, 0x0000000A, 3),
        (1052, one(39, 0x80000002, 2), 41, 0x80000002, 4),
        (1053, one(47, 0x0001FFFE, 2), 33, 0x80000002, 4),
        (1054, page, 16, 0x80000000, 5),
    ] {
        line(rt, number, page.refuses_word(register, word, refusal))?;
    }
    Ok(())
}

// The new set alone is judged.
pub fn renewed(rt: &impl Print) -> io::Result<()> {
    let shared = two(39, 0x80000002, 41, 0x80000002);
    let bad = Short::new().with(0, BAD_SDR1);
    // Long page: only the new set is judged: pairs 3 and 4 that share an address are parted, and a broken pair 7 is turned off. Source: rules 3.
    line(rt, 1055, shared.takes(41, 0x80020002))?;
    line(rt, 1056, one(47, 0x0000000A, 2).takes(47, 0))?;
    // Short page: 6 before 2. Source: rules 7.
    line(rt, 1057, bad.refuses_word(33, 0, 6))
}
