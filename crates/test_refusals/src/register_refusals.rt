// Each refusal of check and set register, and each two that can hold together, in the order of the rules (7); a refused set register leaves the page.
use std::io;
use test_report::lent::{
    BAD_BLOCK, BAD_SDR1, BAD_SEGMENT, BROKEN_2, BROKEN_3, BROKEN_4, BROKEN_5, GOOD, OFF, SDR1,
    SEGMENT, SHARED, refusal_page, set_register,
};
use test_report::line;

// Checks: the length that is lent, SDR1, segment 15, the upper words of an instruction and of a data pair, and the number.
pub fn checks(rt: &impl Print) -> io::Result<()> {
    for (number, length, sdr1, segment, instruction, data, expected) in [
        // Check: a good page is taken. Source: rules 3.
        (272, 132, SDR1, SEGMENT, OFF, OFF, 0),
        // Check: each refusal alone (11 at four lengths, 2, 3, 4, 5). Source: rules 7.
        (273, 131, SDR1, SEGMENT, OFF, OFF, 11),
        (274, 133, SDR1, SEGMENT, OFF, OFF, 11),
        (275, 128, SDR1, SEGMENT, OFF, OFF, 11),
        (276, 0, SDR1, SEGMENT, OFF, OFF, 11),
        (277, 132, BAD_SDR1, SEGMENT, OFF, OFF, 2),
        (278, 132, SDR1, SEGMENT, BAD_BLOCK, OFF, 3),
        (279, 132, SDR1, SEGMENT, OFF, SHARED, 4),
        (280, 132, SDR1, BAD_SEGMENT, OFF, OFF, 5),
        // Check: each two refusals: 11 before 2, 3, 4, 5; 2 before 3, 4, 5; 3 before 4, 5; 4 before 5. Source: rules 7.
        (281, 131, BAD_SDR1, SEGMENT, OFF, OFF, 11),
        (282, 131, SDR1, SEGMENT, BAD_BLOCK, OFF, 11),
        (283, 131, SDR1, SEGMENT, OFF, SHARED, 11),
        (284, 131, SDR1, BAD_SEGMENT, OFF, OFF, 11),
        (285, 132, BAD_SDR1, SEGMENT, BAD_BLOCK, OFF, 2),
        (286, 132, BAD_SDR1, SEGMENT, OFF, SHARED, 2),
        (287, 132, BAD_SDR1, BAD_SEGMENT, OFF, OFF, 2),
        (288, 132, SDR1, SEGMENT, BAD_BLOCK, SHARED, 3),
        (289, 132, SDR1, BAD_SEGMENT, BAD_BLOCK, OFF, 3),
        (290, 132, SDR1, BAD_SEGMENT, OFF, SHARED, 4),
    ] {
        let page = refusal_page([sdr1, segment, instruction, data]);
        let result = mmu::mmu_check(&page[..length.min(136)]);
        line(rt, number, result == expected)?;
    }
    Ok(())
}

// A set register that is lent so many bytes of a page.
fn set_part(page: &mut [u8; 136], length: usize, register: u32, word: u32) -> u32 {
    mmu::mmu_set_register(&mut page[..length.min(136)], register, word)
}

// Whether a word is taken: the page has it, and every other byte is as it was.
fn set_done(four: [u32; 4], register: u8, word: u32) -> bool {
    let page = refusal_page(four);
    let mut lent = page;
    let result = set_part(&mut lent, 132, register as u32, word);
    let mut expected = page;
    set_register(&mut expected, register, word);
    result == 0 && lent == expected
}

// Words that are taken, and broken pages repaired: the words of the page, the register's number and the word.
pub fn sets_done(rt: &impl Print) -> io::Result<()> {
    for (number, four, register, word) in [
        // Set register: SDR1, the first and last segment, the first and last word of the blocks of each side. Source: rules 2.
        (291, GOOD, 0, 0x0F980007),
        (292, GOOD, 1, 0x70FFFFFF),
        (293, GOOD, 16, 0x00000001),
        (294, GOOD, 17, 0xFFFE0003),
        (295, GOOD, 24, 0xFFFFFFFF),
        (296, GOOD, 25, 0x00000003),
        (297, GOOD, 32, 0x12345678),
        // Set register: only the new set is judged, so the one broken word can be replaced by a good one (SDR1, block, shared block, segment). Source: rules 3, "judges the new set".
        (298, BROKEN_2, 0, SDR1),
        (299, BROKEN_3, 17, OFF),
        (300, BROKEN_4, 27, 0xA0000002),
        (301, BROKEN_5, 16, SEGMENT),
    ] {
        line(rt, number, set_done(four, register, word))?;
    }
    Ok(())
}

// The number of a refused set register that is lent so many bytes of a page; none where it changes the page.
fn set(four: [u32; 4], length: usize, register: u32, word: u32) -> Option<u32> {
    let page = refusal_page(four);
    let mut lent = page;
    let result = set_part(&mut lent, length, register, word);
    (lent == page).then_some(result)
}

// Words that are refused: the words of the page, the length that is lent, the register's number, the word, and the number.
pub fn sets_refused(rt: &impl Print) -> io::Result<()> {
    for (number, four, length, register, word, expected) in [
        // Set register: each refusal alone (11, 6 twice, 2, 3, 4, 5); the page is left. Source: rules 7.
        (302, GOOD, 131, 0, SDR1, 11),
        (303, GOOD, 132, 33, SDR1, 6),
        (304, GOOD, 132, 0xFFFFFFFF, SDR1, 6),
        (305, GOOD, 132, 0, BAD_SDR1, 2),
        (306, GOOD, 132, 17, BAD_BLOCK, 3),
        (307, GOOD, 132, 27, SHARED, 4),
        (308, GOOD, 132, 16, BAD_SEGMENT, 5),
        // Set register: 11 before 6, 2, 3, 4, 5; the page is left. Source: rules 7.
        (309, GOOD, 131, 33, SDR1, 11),
        (310, GOOD, 133, 0, BAD_SDR1, 11),
        (311, GOOD, 131, 17, BAD_BLOCK, 11),
        (312, GOOD, 133, 27, SHARED, 11),
        (313, GOOD, 131, 16, BAD_SEGMENT, 11),
        // Set register: 6 before 2, 3, 4, 5 of the page; the page is left. Source: rules 7.
        (314, BROKEN_2, 132, 33, SDR1, 6),
        (315, BROKEN_3, 132, 33, SDR1, 6),
        (316, BROKEN_4, 132, 33, SDR1, 6),
        (317, BROKEN_5, 132, 33, SDR1, 6),
        // Set register: 2 before 3, 4, 5; 3 before 4, 5; 4 before 5, one broken in the page and one by the new word; the page is left. Source: rules 7.
        (318, BROKEN_3, 132, 0, BAD_SDR1, 2),
        (319, BROKEN_4, 132, 0, BAD_SDR1, 2),
        (320, BROKEN_5, 132, 0, BAD_SDR1, 2),
        (321, BROKEN_4, 132, 17, BAD_BLOCK, 3),
        (322, BROKEN_5, 132, 17, BAD_BLOCK, 3),
        (323, BROKEN_5, 132, 27, SHARED, 4),
        (324, BROKEN_2, 132, 17, BAD_BLOCK, 2),
        (325, BROKEN_3, 132, 27, SHARED, 3),
        (326, BROKEN_4, 132, 16, BAD_SEGMENT, 4),
    ] {
        let result = set(four, length, register, word);
        line(rt, number, result == Some(expected))?;
    }
    Ok(())
}
