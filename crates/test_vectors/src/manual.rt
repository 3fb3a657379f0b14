// SDR1, table sizes and group addresses: sections 7.7.1.1, 7.7.1.6 and 7.7.1.7 and Table 7-19 of the manual.
use std::io;
use test_report::lent::{SDR1, registers};
use test_report::line;

// Groups of pages, in a table whose hash is masked with these ones, for a VSID and a page index: an address of the manual less the table's, over 64.
// Section 7.7.1.7: 0F9FF980 is group 0x1FE6 and 0F980640 is group 0x0019 of the table at 0F980000.
pub fn group_addresses(rt: &impl Print) -> io::Result<()> {
    for (number, ones, vsid, index, primary, secondary) in [
        // The groups at 0F9FF980 and 0F980640, for the eight page indices that differ in bits 24-26 of the virtual address only. Source: the manual, section 7.7.1.7; VSID and address of rules 9, case 1.
        (13, 0x1FFF, 0x0C701C, 0x0FFA, 0x1FE6, 0x0019),
        (14, 0x1FFF, 0x0C701C, 0x2FFA, 0x1FE6, 0x0019),
        (15, 0x1FFF, 0x0C701C, 0x4FFA, 0x1FE6, 0x0019),
        (16, 0x1FFF, 0x0C701C, 0x6FFA, 0x1FE6, 0x0019),
        (17, 0x1FFF, 0x0C701C, 0x8FFA, 0x1FE6, 0x0019),
        (18, 0x1FFF, 0x0C701C, 0xAFFA, 0x1FE6, 0x0019),
        (19, 0x1FFF, 0x0C701C, 0xCFFA, 0x1FE6, 0x0019),
        (20, 0x1FFF, 0x0C701C, 0xEFFA, 0x1FE6, 0x0019),
        // A table of 4096 groups: the two groups of a page are complements in bits 14-25, and each is the primary of one page and the secondary of another. Source: the manual, section 7.7.1.6; inputs ours.
        (21, 0xFFF, 0, 0x0123, 0x123, 0xEDC),
        (22, 0xFFF, 0, 0x0EDC, 0xEDC, 0x123),
        // A table of 16,384 groups: 14 bits of the hash. Source: the manual, section 7.7.1.1; inputs ours.
        (23, 0x3FFF, 0, 0xFFFF, 0x3FFF, 0),
        (24, 0x3FFF, 0, 0x4001, 1, 0x3FFE),
    ] {
        let found = groups::groups_of(ones, groups::hash_of(vsid, index));
        let good = found.primary == primary && found.secondary == secondary;
        line(rt, number, good)?;
    }
    Ok(())
}

// The number of a check of a page with this SDR1.
fn check(word: u32) -> u32 {
    let page: [u8; 132] = registers(&[(0, word)]);
    mmu::mmu_check(&page)
}

// Table 7-19: a good SDR1, the length of the table that it names, and what clears lent 65,536 and 131,072 bytes answer.
pub fn sizes(rt: &impl Print) -> io::Result<()> {
    for (number, word, length, first, second) in [
        // Table sizes: 64 Kbytes to 32 Mbytes, every maskable origin bit one: the SDR1 is good, its table has that length, and clear takes 65,536 and 131,072 bytes in their rows only. Source: the manual, Table 7-19.
        (25, 0xFFFF0000, 65536, 0, 1),
        (26, 0xFFFE0001, 131072, 1, 0),
        (27, 0xFFFC0003, 262144, 1, 1),
        (28, 0xFFF80007, 524288, 1, 1),
        (29, 0xFFF0000F, 1048576, 1, 1),
        (30, 0xFFE0001F, 2097152, 1, 1),
        (31, 0xFFC0003F, 4194304, 1, 1),
        (32, 0xFF80007F, 8388608, 1, 1),
        (33, 0xFF0000FF, 16777216, 1, 1),
        (34, 0xFE0001FF, 33554432, 1, 1),
    ] {
        let named = register_words::table_length(word) == length;
        let mut small = [0xFFu8; 65536];
        let mut large = [0xFFu8; 131072];
        let cleared = mmu::mmu_clear(word, &mut small) == first
            && mmu::mmu_clear(word, &mut large) == second;
        line(rt, number, check(word) == 0 && named && cleared)?;
    }
    Ok(())
}

// Words of SDR1 that are refused with 2.
pub fn shapes(rt: &impl Print) -> io::Result<()> {
    for (number, word) in [
        // Each row's lowest origin bit that must be zero, set: refused 2. Source: the manual, Table 7-19 and section 7.7.1.1.
        (35, 0xFFFF0001),
        (36, 0xFFFE0003),
        (37, 0xFFFC0007),
        (38, 0xFFF8000F),
        (39, 0xFFF0001F),
        (40, 0xFFE0003F),
        (41, 0xFFC0007F),
        (42, 0xFF8000FF),
        (43, 0xFF0001FF),
        // The mask 15 asks four origin bits zero: each of them set is refused 2. Source: the manual, section 7.7.1.1.
        (44, 0x1231000F),
        (45, 0x1232000F),
        (46, 0x1234000F),
        (47, 0x1238000F),
        // Masks with a zero below a one (2, 4, 6, 8, 0x100, 0x1FE) are refused 2. Source: the manual, section 7.7.1.1.
        (48, 0x00000002),
        (49, 0x00000004),
        (50, 0x00000006),
        (51, 0x00000008),
        (52, 0x00000100),
        (53, 0x000001FE),
        // Each reserved bit of SDR1, 16 to 22, is refused 2. Source: rules 3.
        (54, 0x00008000),
        (55, 0x00004000),
        (56, 0x00002000),
        (57, 0x00001000),
        (58, 0x00000800),
        (59, 0x00000400),
        (60, 0x00000200),
    ] {
        line(rt, number, check(word) == 2)?;
    }
    Ok(())
}

// Segments: the number of a register of the page and its word, and the number of a check.
pub fn segments(rt: &impl Print) -> io::Result<()> {
    for (number, register, word, expected) in [
        // A segment register with T, or with one of bits 4 to 7, is refused 5; Ks, Kp, N and every VSID bit are taken. Source: rules 3.
        (61, 1, 0x80000000, 5),
        (62, 8, 0x08000000, 5),
        (63, 9, 0x04000000, 5),
        (64, 10, 0x02000000, 5),
        (65, 16, 0x01000000, 5),
        (66, 16, 0x70FFFFFF, 0),
    ] {
        let page: [u8; 132] = registers(&[(0, SDR1), (register, word)]);
        line(rt, number, mmu::mmu_check(&page) == expected)?;
    }
    Ok(())
}
