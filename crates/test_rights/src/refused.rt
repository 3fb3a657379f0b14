// Refusals: a length leaves the answer, and any other is told three times, its number and zero words, with no marks.
use super::asked::ADDRESS;
use std::io;
use test_report::answered::begins_with;
use test_report::lent::{
    BAD_BLOCK, BAD_SDR1, BAD_SEGMENT, Entry, OFF, SDR1, SEGMENT, SHARED, refusal_page, table_with,
};
use test_report::line;

// The words of a register page that breaks no rule.
const GOOD: [u32; 4] = [SDR1, SEGMENT, OFF, OFF];

// Whether the call with these lent parts answers 11 and leaves 160 bytes, of which an answer was lent.
fn refuses_length(registers: &[u8], length: usize, mode: u32) -> bool {
    let mut answer = [0xAAu8; 160];
    let table = table_with(&[Entry::of_page(0x12345012)]);
    let lent = &mut answer[..length.min(160)];
    let number = mmu::mmu_rights(registers, mode, ADDRESS, &table, lent);
    number == 11 && answer == [0xAA; 160]
}

// Lengths of the register page and of the answer.
pub fn lengths(rt: &impl Print) -> io::Result<()> {
    let page = refusal_page(GOOD);
    let right = &page[..132];
    for (number, registers, length, mode) in [
        // Register pages of 131, 133 and 195 bytes. Source: rules 2 and 7.
        (1204, &page[..131], 156, 3),
        (1205, &page[..133], 156, 3),
        (1206, [0u8; 195].as_slice(), 156, 3),
        // Answers of 155, 157, 48 and no bytes. Source: rules 2 and 7.
        (1207, right, 155, 3),
        (1208, right, 157, 3),
        (1209, right, 48, 3),
        (1210, right, 0, 3),
        // 11 before 6. Source: rules 7.
        (1211, right, 155, 8),
    ] {
        line(rt, number, refuses_length(registers, length, mode))?;
    }
    Ok(())
}

// Whether a call with this register page and this table answers this number, three times with eleven zero words, and three zero words.
fn refuses(page: &[u8; 136], mode: u32, table: &[u8], number: u32) -> bool {
    let mut answer = [0xAAu8; 156];
    let result = mmu::mmu_rights(&page[..132], mode, ADDRESS, table, &mut answer);
    let mut expected = [0; 39];
    expected[0] = number;
    expected[12] = number;
    expected[24] = number;
    result == number && begins_with(&answer, &expected)
}

// Each refusal alone, translated and in real mode.
pub fn alone(rt: &impl Print) -> io::Result<()> {
    let zeros = [0u8; 131072];
    let right = &zeros[..65536];
    for (number, four, mode, table, refusal) in [
        // 6: mode 8 and FFFFFFFF. Source: rules 7.
        (1212, GOOD, 8, right, 6),
        (1213, GOOD, 0xFFFFFFFF, right, 6),
        // 2, 3, 4 and 5. Source: rules 7.
        (1214, [BAD_SDR1, SEGMENT, OFF, OFF], 3, right, 2),
        (1215, [SDR1, SEGMENT, BAD_BLOCK, OFF], 3, right, 3),
        (1216, [SDR1, SEGMENT, OFF, SHARED], 3, right, 4),
        (1217, [SDR1, BAD_SEGMENT, OFF, OFF], 0, right, 5),
        // 1: tables of 65,535 and of 131,072 bytes, in real mode too. Source: rules 7.
        (1218, GOOD, 3, &zeros[..65535], 1),
        (1219, GOOD, 0, &zeros[..], 1),
    ] {
        let page = refusal_page(four);
        line(rt, number, refuses(&page, mode, table, refusal))?;
    }
    Ok(())
}

// The first broken rule is told.
pub fn in_order(rt: &impl Print) -> io::Result<()> {
    for (number, four, mode, refusal) in [
        // 6 before 2 and 1; 2 before 3; 5 before 1. Source: rules 7.
        (1220, [BAD_SDR1, SEGMENT, OFF, OFF], 8, 6),
        (1221, [BAD_SDR1, SEGMENT, BAD_BLOCK, OFF], 3, 2),
        (1222, [SDR1, BAD_SEGMENT, OFF, OFF], 3, 5),
    ] {
        let page = refusal_page(four);
        line(rt, number, refuses(&page, mode, &[], refusal))?;
    }
    Ok(())
}
