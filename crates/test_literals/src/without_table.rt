// Check, set_register, pack and unpack.
use super::lent::registers;
use std::io;
use test_report::line;

// A page that breaks no rule.
fn check_good() -> bool {
    mmu::mmu_check(&registers()) == 0
}

// Segment register 15 with T set: its first byte is the page's byte 64.
fn check_broken() -> bool {
    let mut page = registers();
    page[64] = 0x80;
    mmu::mmu_check(&page) == 5
}

// Segment register 15 is replaced, and no other byte.
fn set_register() -> bool {
    let mut page = registers();
    let number = mmu::mmu_set_register(&mut page, 16, 0x70ABCDEF);
    let mut expected = registers();
    expected[64..68].copy_from_slice(b"\x70\xAB\xCD\xEF");
    number == 0 && page == expected
}

// The entry of the page of the cases.
fn pack() -> bool {
    let mut entry = [0xAAu8; 8];
    let number = mmu::mmu_pack(1, 0x0C701C, 0, 3, 0x12345, 0, 0, 2, 2, &mut entry);
    number == 0 && entry == *b"\x86\x38\x0E\x03\x12\x34\x50\x12"
}

// Every field has its word.
fn unpack() -> bool {
    let mut fields = [0xAAu8; 36];
    let number = mmu::mmu_unpack(0x86380E43, 0x12345192, &mut fields);
    let expected =
        b"\x00\x00\x00\x01\x00\x0C\x70\x1C\x00\x00\x00\x01\x00\x00\x00\x03\x00\x01\x23\x45\x00\x00\x00\x01\x00\x00\x00\x01\x00\x00\x00\x02\x00\x00\x00\x02";
    number == 0 && fields == *expected
}

// Calls on a register page. Source: rules 3.
pub fn pages(rt: &impl Print) -> io::Result<()> {
    line(rt, 1242, check_good())?;
    line(rt, 1243, check_broken())?;
    line(rt, 1244, set_register())
}

// Calls on an entry. Source: rules 4.
pub fn entries(rt: &impl Print) -> io::Result<()> {
    line(rt, 1245, pack())?;
    line(rt, 1246, unpack())
}
