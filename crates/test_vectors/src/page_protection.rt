// Protection and marks of a page: Tables 7-15 and 7-16, 7-17, 7-14 and 7-3.
use std::io;
use test_report::asked::Asked;
use test_report::lent::{Entry, SDR1, registers, table_with};
use test_report::line;

// Words of segment 0 with the VSID of the cases: keys 0, both keys 1, Kp alone, Ks alone, N, and N with both keys 1.
const KEY_0: u32 = 0x000C701C;

const KEY_1: u32 = 0x600C701C;

const KP: u32 = 0x200C701C;

const KS: u32 = 0x400C701C;

const N: u32 = 0x100C701C;

const N_KEY_1: u32 = 0x700C701C;

// With VSID 1, which is not in the table, and with N too.
const VSID_1: u32 = 0x00000001;

const N_VSID_1: u32 = 0x10000001;

// A case: its number, the word of segment 0, mode, kind and the entry's second word, and the result, the second word of the answer and the entry's second
// word that is left.
type Row = (u64, u32, u32, u32, u32, u32, u32, u32);

// Writes the lines of cases, each an access to the byte at 00FFA01B by a table with one entry. The attributes are those of WIMG 2, or 3 where the word has
// G too. The result is the C interface's number.
fn lines(rt: &impl Print, rows: &[Row]) -> io::Result<()> {
    for (number, segment, mode, kind, second, res, word, after) in rows {
        let page = registers(&[(0, SDR1), (1, *segment)]);
        let third = match *res {
            0 => 2 | ((*second >> 3) & 1),
            64 => 0x300,
            _ => 0x400,
        };
        let asked = Asked::byte(*mode, *kind, 0x00FFA01B);
        let mut table = table_with(&[Entry::of_page(*second)]);
        let left = table_with(&[Entry::of_page(*after)]);
        let good = asked.answers_three(page, &mut table, [*res, *word, third], &left);
        line(rt, *number, good)?;
    }
    Ok(())
}

// Key 0.
pub fn key_0(rt: &impl Print) -> io::Result<()> {
    let rows = [
        // Page protection, key 0, PP 00, 01, 10, 11, each by fetch, load and store, with the marks that are left. Source: the manual, Tables 7-15 and 7-16.
        (164, KEY_0, 2, 0, 0x12345010, 0, 0x1234501B, 0x12345110),
        (165, KEY_0, 1, 1, 0x12345010, 0, 0x1234501B, 0x12345110),
        (166, KEY_0, 1, 2, 0x12345010, 0, 0x1234501B, 0x12345190),
        (167, KEY_0, 2, 0, 0x12345011, 0, 0x1234501B, 0x12345111),
        (168, KEY_0, 1, 1, 0x12345011, 0, 0x1234501B, 0x12345111),
        (169, KEY_0, 1, 2, 0x12345011, 0, 0x1234501B, 0x12345191),
        (170, KEY_0, 2, 0, 0x12345012, 0, 0x1234501B, 0x12345112),
        (171, KEY_0, 1, 1, 0x12345012, 0, 0x1234501B, 0x12345112),
        (172, KEY_0, 1, 2, 0x12345012, 0, 0x1234501B, 0x12345192),
        (173, KEY_0, 2, 0, 0x12345013, 0, 0x1234501B, 0x12345113),
        (174, KEY_0, 1, 1, 0x12345013, 0, 0x1234501B, 0x12345113),
        (175, KEY_0, 1, 2, 0x12345013, 64, 0x0A000000, 0x12345013),
    ];
    lines(rt, &rows)
}

// Key 1.
pub fn key_1(rt: &impl Print) -> io::Result<()> {
    let rows = [
        // Page protection, key 1, PP 00, 01, 10, 11, each by fetch, load and store, with the marks that are left. Source: the manual, Tables 7-15 and 7-16.
        (176, KEY_1, 2, 0, 0x12345010, 65, 0x08000000, 0x12345010),
        (177, KEY_1, 1, 1, 0x12345010, 64, 0x08000000, 0x12345010),
        (178, KEY_1, 1, 2, 0x12345010, 64, 0x0A000000, 0x12345010),
        (179, KEY_1, 2, 0, 0x12345011, 0, 0x1234501B, 0x12345111),
        (180, KEY_1, 1, 1, 0x12345011, 0, 0x1234501B, 0x12345111),
        (181, KEY_1, 1, 2, 0x12345011, 64, 0x0A000000, 0x12345011),
        (182, KEY_1, 2, 0, 0x12345012, 0, 0x1234501B, 0x12345112),
        (183, KEY_1, 1, 1, 0x12345012, 0, 0x1234501B, 0x12345112),
        (184, KEY_1, 1, 2, 0x12345012, 0, 0x1234501B, 0x12345192),
        (185, KEY_1, 2, 0, 0x12345013, 0, 0x1234501B, 0x12345113),
        (186, KEY_1, 1, 1, 0x12345013, 0, 0x1234501B, 0x12345113),
        (187, KEY_1, 1, 2, 0x12345013, 64, 0x0A000000, 0x12345013),
    ];
    lines(rt, &rows)
}

// Table 7-17.
pub fn user_and_supervisor(rt: &impl Print) -> io::Result<()> {
    let rows = [
        // Ks 0, Kp 1: user read, user write, supervisor read, supervisor write of PP 00, 01, 10, 11. Source: the manual, Table 7-17.
        (188, KP, 5, 1, 0x12345010, 64, 0x08000000, 0x12345010),
        (189, KP, 5, 2, 0x12345010, 64, 0x0A000000, 0x12345010),
        (190, KP, 1, 1, 0x12345010, 0, 0x1234501B, 0x12345110),
        (191, KP, 1, 2, 0x12345010, 0, 0x1234501B, 0x12345190),
        (192, KP, 5, 1, 0x12345011, 0, 0x1234501B, 0x12345111),
        (193, KP, 5, 2, 0x12345011, 64, 0x0A000000, 0x12345011),
        (194, KP, 1, 1, 0x12345011, 0, 0x1234501B, 0x12345111),
        (195, KP, 1, 2, 0x12345011, 0, 0x1234501B, 0x12345191),
        (196, KP, 5, 1, 0x12345012, 0, 0x1234501B, 0x12345112),
        (197, KP, 5, 2, 0x12345012, 0, 0x1234501B, 0x12345192),
        (198, KP, 1, 1, 0x12345012, 0, 0x1234501B, 0x12345112),
        (199, KP, 1, 2, 0x12345012, 0, 0x1234501B, 0x12345192),
        (200, KP, 5, 1, 0x12345013, 0, 0x1234501B, 0x12345113),
        (201, KP, 5, 2, 0x12345013, 64, 0x0A000000, 0x12345013),
        (202, KP, 1, 1, 0x12345013, 0, 0x1234501B, 0x12345113),
        (203, KP, 1, 2, 0x12345013, 64, 0x0A000000, 0x12345013),
    ];
    lines(rt, &rows)
}

// Ks 1, Kp 0.
pub fn keys_exchanged(rt: &impl Print) -> io::Result<()> {
    let rows = [
        // Ks 1, Kp 0: the same with user and supervisor exchanged, so that Kp for a supervisor access would answer otherwise. Source: the manual, Table 7-17 and the text below it; rules 10.
        (204, KS, 5, 1, 0x12345010, 0, 0x1234501B, 0x12345110),
        (205, KS, 5, 2, 0x12345010, 0, 0x1234501B, 0x12345190),
        (206, KS, 1, 1, 0x12345010, 64, 0x08000000, 0x12345010),
        (207, KS, 1, 2, 0x12345010, 64, 0x0A000000, 0x12345010),
        (208, KS, 5, 1, 0x12345011, 0, 0x1234501B, 0x12345111),
        (209, KS, 5, 2, 0x12345011, 0, 0x1234501B, 0x12345191),
        (210, KS, 1, 1, 0x12345011, 0, 0x1234501B, 0x12345111),
        (211, KS, 1, 2, 0x12345011, 64, 0x0A000000, 0x12345011),
        (212, KS, 5, 1, 0x12345012, 0, 0x1234501B, 0x12345112),
        (213, KS, 5, 2, 0x12345012, 0, 0x1234501B, 0x12345192),
        (214, KS, 1, 1, 0x12345012, 0, 0x1234501B, 0x12345112),
        (215, KS, 1, 2, 0x12345012, 0, 0x1234501B, 0x12345192),
        (216, KS, 5, 1, 0x12345013, 0, 0x1234501B, 0x12345113),
        (217, KS, 5, 2, 0x12345013, 64, 0x0A000000, 0x12345013),
        (218, KS, 1, 1, 0x12345013, 0, 0x1234501B, 0x12345113),
        (219, KS, 1, 2, 0x12345013, 64, 0x0A000000, 0x12345013),
    ];
    lines(rt, &rows)
}

// Table 7-14, by the rows that the rules fix.
pub fn marks(rt: &impl Print) -> io::Result<()> {
    let rows = [
        // Marks: a no-execute violation sets neither (marks clear, marks set). Source: the manual, Table 7-14, row 1.
        (220, N, 2, 0, 0x12345012, 65, 0x10000000, 0x12345012),
        (221, N, 2, 0, 0x12345192, 65, 0x10000000, 0x12345192),
        // Marks: a protection violation sets neither, by fetch, load and store (the rules fix "maybe" as no). Source: the manual, Table 7-14, row 2; rules 5, step 7.
        (222, KEY_1, 2, 0, 0x12345010, 65, 0x08000000, 0x12345010),
        (223, KEY_1, 1, 1, 0x12345010, 64, 0x08000000, 0x12345010),
        (224, KEY_1, 1, 2, 0x12345011, 64, 0x0A000000, 0x12345011),
        (225, KEY_0, 1, 2, 0x12345113, 64, 0x0A000000, 0x12345113),
        // Marks: a fetch sets R and no C; C that was set stays. Source: the manual, Table 7-14, row 9.
        (226, KEY_0, 2, 0, 0x12345012, 0, 0x1234501B, 0x12345112),
        (227, KEY_0, 2, 0, 0x12345092, 0, 0x1234501B, 0x12345192),
        // Marks: a load sets R and no C; C that was set stays. Source: the manual, Table 7-14, row 10.
        (228, KEY_0, 1, 1, 0x12345012, 0, 0x1234501B, 0x12345112),
        (229, KEY_0, 1, 1, 0x12345192, 0, 0x1234501B, 0x12345192),
        // Marks: a store sets R and C. Source: the manual, Table 7-14, row 11.
        (230, KEY_0, 1, 2, 0x12345012, 0, 0x1234501B, 0x12345192),
        (231, KEY_0, 1, 2, 0x12345112, 0, 0x1234501B, 0x12345192),
    ];
    lines(rt, &rows)
}

// Table 7-3 and the order of the steps.
pub fn exceptions(rt: &impl Print) -> io::Result<()> {
    let rows = [
        // A fetch from guarded memory faults with 10000000; a load and a store of it are done. Source: the manual, Table 7-3.
        (232, KEY_0, 2, 0, 0x1234501A, 65, 0x10000000, 0x1234501A),
        (233, KEY_0, 1, 1, 0x1234501A, 0, 0x1234501B, 0x1234511A),
        (234, KEY_0, 1, 2, 0x1234501A, 0, 0x1234501B, 0x1234519A),
        // N in a segment does not stop a load or a store. Source: the manual, Table 7-3.
        (235, N, 1, 1, 0x12345012, 0, 0x1234501B, 0x12345112),
        (236, N, 1, 2, 0x12345012, 0, 0x1234501B, 0x12345192),
        // Only the first cause counts: N before protection, G before protection, N and G. Source: rules 5, steps 3, 5, 6.
        (237, N_KEY_1, 2, 0, 0x12345010, 65, 0x10000000, 0x12345010),
        (238, KEY_1, 2, 0, 0x12345018, 65, 0x10000000, 0x12345018),
        (239, N, 2, 0, 0x1234501A, 65, 0x10000000, 0x1234501A),
        // N before no match: VSID 1 is not in the table. Source: rules 5, steps 3 and 4.
        (240, N_VSID_1, 2, 0, 0x12345012, 65, 0x10000000, 0x12345012),
        (241, VSID_1, 2, 0, 0x12345012, 65, 0x40000000, 0x12345012),
    ];
    lines(rt, &rows)
}
