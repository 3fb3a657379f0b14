// The page calls.
use super::lent::table_with;
use std::io;
use test_report::lent::{INDEX, SDR1, VSID};
use test_report::line;

// Every byte is zeroed.
fn clear() -> bool {
    let mut table = [0xAAu8; 65536];
    let number = mmu::mmu_clear(SDR1, &mut table);
    number == 0 && table == [0; 65536]
}

// The entry is put into the first free place.
fn map() -> bool {
    let mut table = [0u8; 65536];
    let number = mmu::mmu_map(SDR1, VSID, INDEX, 0x12345, 2, 2, &mut table);
    number == 0 && table == table_with(0x50, 0x12)
}

// The PP alone changes.
fn protect() -> bool {
    let mut table = table_with(0x50, 0x12);
    let number = mmu::mmu_protect(SDR1, VSID, INDEX, 1, &mut table);
    number == 0 && table == table_with(0x50, 0x11)
}

// The answer has the marked word, and the entry goes.
fn unmap() -> bool {
    let mut table = table_with(0x51, 0x92);
    let mut answer = [0xAAu8; 16];
    let number = mmu::mmu_unmap(SDR1, VSID, INDEX, &mut table, &mut answer);
    let expected = b"\x00\x00\x00\x00\x12\x34\x51\x92\x00\x00\x00\x00\x00\x00\x00\x00";
    number == 0 && answer == *expected && table == [0; 65536]
}

// The answer has the entry's word.
fn look() -> bool {
    let table = table_with(0x5F, 0x16);
    let mut answer = [0xAAu8; 16];
    let number = mmu::mmu_look(SDR1, VSID, INDEX, &table, &mut answer);
    let expected = b"\x00\x00\x00\x00\x12\x34\x5F\x16\x00\x00\x00\x00\x00\x00\x00\x00";
    number == 0 && answer == *expected
}

// No entry.
fn look_in_vain() -> bool {
    let mut answer = [0xAAu8; 16];
    let number = mmu::mmu_look(SDR1, VSID, INDEX, &[0; 65536], &mut answer);
    let expected = b"\x00\x00\x00\x08\x00\x00\x00\x00\x00\x00\x00\x00\x00\x00\x00\x00";
    number == 8 && answer == *expected
}

// Calls that answer by the table alone. Source: rules 6.
pub fn tables(rt: &impl Print) -> io::Result<()> {
    line(rt, 1229, clear())?;
    line(rt, 1230, map())?;
    line(rt, 1231, protect())
}

// Calls that answer bytes. Source: rules 6.
pub fn answers(rt: &impl Print) -> io::Result<()> {
    line(rt, 1232, unmap())?;
    line(rt, 1233, look())?;
    line(rt, 1234, look_in_vain())
}
