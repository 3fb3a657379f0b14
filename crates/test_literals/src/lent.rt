// What the cases lend, byte by byte. The page of the cases has VSID 0C701C and page index 0FFA: under SDR1 0F980000 its primary group is 998, whose
// first byte is 63,872.

// A table with that page's entry in its primary group: RPN 12345, WIMG 2, PP 2; its last two bytes have the marks and PP.
pub fn table_with(seventh: u8, eighth: u8) -> [u8; 65536] {
    let mut table = [0u8; 65536];
    table[63872..63880].copy_from_slice(&[0x86, 0x38, 0x0E, 0x03, 0x12, 0x34, seventh, eighth]);
    table
}

// The same with the next page's entry, in group 999: RPN 54321, WIMG 0, PP 2.
pub fn table_with_next(seventh: u8, next: u8) -> [u8; 65536] {
    let mut table = table_with(seventh, 0x12);
    table[63936..63944].copy_from_slice(&[0x86, 0x38, 0x0E, 0x03, 0x54, 0x32, next, 0x02]);
    table
}

// A register page with SDR1, segment register 0 of VSID 0C701C, and data pair 0: 80001FFE 1000005A.
pub fn registers() -> [u8; 132] {
    let mut page = [0u8; 132];
    page[..8].copy_from_slice(b"\x0F\x98\x00\x00\x00\x0C\x70\x1C");
    page[100..108].copy_from_slice(b"\x80\x00\x1F\xFE\x10\x00\x00\x5A");
    page
}
