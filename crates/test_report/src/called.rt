// Page calls of the page of the cases under SDR1: what each is asked, and what its answer and the table are held to. Numbers and words stand beside each
// other as the C interface answers them.
use super::answered::begins_with;
use super::lent::{INDEX, SDR1, VSID};

// Whether a look answers this number and word.
pub fn look(vsid: u32, table: [u8; 65536], res: u32, word: u32) -> bool {
    let mut answer = [0xAAu8; 16];
    let number = mmu::mmu_look(SDR1, vsid, INDEX, &table, &mut answer);
    number == res && begins_with(&answer, &[res, word, 0, 0])
}

// Whether an unmap answers this number and word and leaves this table.
pub fn unmap(table: [u8; 65536], res: u32, word: u32, after: [u8; 65536]) -> bool {
    let mut lent = table;
    let mut answer = [0xAAu8; 16];
    let number = mmu::mmu_unmap(SDR1, VSID, INDEX, &mut lent, &mut answer);
    number == res && begins_with(&answer, &[res, word, 0, 0]) && lent == after
}

// Whether a protect answers this number and leaves this table.
pub fn protect(pp: u32, table: [u8; 65536], res: u32, after: [u8; 65536]) -> bool {
    let mut lent = table;
    let number = mmu::mmu_protect(SDR1, VSID, INDEX, pp, &mut lent);
    number == res && lent == after
}

// Whether a map to RPN 0x12345, WIMG 2, PP 2 answers this number and leaves this table.
pub fn map(table: [u8; 65536], res: u32, after: [u8; 65536]) -> bool {
    let mut lent = table;
    let number = mmu::mmu_map(SDR1, VSID, INDEX, 0x12345, 2, 2, &mut lent);
    number == res && lent == after
}
