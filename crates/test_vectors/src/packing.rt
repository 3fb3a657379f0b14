// Packing and unpacking of an entry.
use std::io;
use test_report::answered::begins_with;
use test_report::line;

// Each of the nine fields at its largest.
const LARGEST: [u32; 9] = [1, 0xFFFFFF, 1, 63, 0xFFFFF, 1, 1, 15, 3];

// A pack lent so many bytes of an entry.
fn pack(f: [u32; 9], entry: &mut [u8]) -> u32 {
    mmu::mmu_pack(f[0], f[1], f[2], f[3], f[4], f[5], f[6], f[7], f[8], entry)
}

// Nine fields, and the number and the two words that they pack into.
pub fn packed(rt: &impl Print) -> io::Result<()> {
    let inhibited = [1, 0x0C701C, 0, 3, 0x12345, 0, 0, 12, 2];
    for (number, fields, expected, first, second) in [
        // Pack: each field alone, 1 (V, VSID, H, API, RPN, R, C, WIMG, PP), and all at their largest. Source: rules 4.
        (242, [1, 0, 0, 0, 0, 0, 0, 0, 0], 0, 0x80000000, 0),
        (243, [0, 1, 0, 0, 0, 0, 0, 0, 0], 0, 0x00000080, 0),
        (244, [0, 0, 1, 0, 0, 0, 0, 0, 0], 0, 0x00000040, 0),
        (245, [0, 0, 0, 1, 0, 0, 0, 0, 0], 0, 0x00000001, 0),
        (246, [0, 0, 0, 0, 1, 0, 0, 0, 0], 0, 0, 0x00001000),
        (247, [0, 0, 0, 0, 0, 1, 0, 0, 0], 0, 0, 0x00000100),
        (248, [0, 0, 0, 0, 0, 0, 1, 0, 0], 0, 0, 0x00000080),
        (249, [0, 0, 0, 0, 0, 0, 0, 1, 0], 0, 0, 0x00000008),
        (250, [0, 0, 0, 0, 0, 0, 0, 0, 1], 0, 0, 0x00000001),
        (251, LARGEST, 0, 0xFFFFFFFF, 0xFFFFF1FB),
        // Pack: W and I may both be one. Source: rules 4.
        (252, inhibited, 0, 0x86380E03, 0x12345062),
        // Pack: 6 and zero words by each field one past its width (V, VSID, H, API, RPN, R, C, WIMG, PP). Source: rules 4.
        (253, [2, 0, 0, 0, 0, 0, 0, 0, 0], 6, 0, 0),
        (254, [1, 0x1000000, 0, 0, 0, 0, 0, 0, 0], 6, 0, 0),
        (255, [1, 0, 2, 0, 0, 0, 0, 0, 0], 6, 0, 0),
        (256, [1, 0, 0, 64, 0, 0, 0, 0, 0], 6, 0, 0),
        (257, [1, 0, 0, 0, 0x100000, 0, 0, 0, 0], 6, 0, 0),
        (258, [1, 0, 0, 0, 0, 2, 0, 0, 0], 6, 0, 0),
        (259, [1, 0, 0, 0, 0, 0, 2, 0, 0], 6, 0, 0),
        (260, [1, 0, 0, 0, 0, 0, 0, 16, 0], 6, 0, 0),
        (261, [1, 0, 0, 0, 0, 0, 0, 0, 4], 6, 0, 0),
    ] {
        let mut entry = [0xAAu8; 8];
        let result = pack(fields, &mut entry);
        let good = result == expected && begins_with(&entry, &[first, second]);
        line(rt, number, good)?;
    }
    Ok(())
}

// Two words, and the fields that they unpack into.
pub fn unpacked(rt: &impl Print) -> io::Result<()> {
    let in_secondary = [1, 0x0C701C, 1, 3, 0x12345, 0, 0, 2, 2];
    for (number, first, second, fields) in [
        // Unpack: words of ones; an entry's words with every ignored bit set; zero words. Source: rules 4.
        (262, 0xFFFFFFFF, 0xFFFFFFFF, LARGEST),
        (263, 0x86380E43, 0x12345E16, in_secondary),
        (264, 0, 0, [0, 0, 0, 0, 0, 0, 0, 0, 0]),
    ] {
        let mut lent = [0xAAu8; 36];
        let result = mmu::mmu_unpack(first, second, &mut lent);
        line(rt, number, result == 0 && begins_with(&lent, &fields))?;
    }
    Ok(())
}

// Whether a pack of V alone lent so many bytes is refused with 11, which leaves them.
fn pack_refused(v: u32, length: usize) -> bool {
    let mut entry = [0xAAu8; 12];
    let result = pack([v, 0, 0, 0, 0, 0, 0, 0, 0], &mut entry[..length.min(12)]);
    result == 11 && entry == [0xAA; 12]
}

// The same of an unpack.
fn unpack_refused(length: usize) -> bool {
    let mut fields = [0xAAu8; 40];
    let result = mmu::mmu_unpack(0x86380E03, 0x12345012, &mut fields[..length.min(40)]);
    result == 11 && fields == [0xAA; 40]
}

// Wrong lengths.
pub fn wrong_lengths(rt: &impl Print) -> io::Result<()> {
    // Pack and unpack: 11 at another length (pack 7, 9, 0; unpack 35, 37, 0), and pack's 11 before 6; the bytes are left. Source: rules 7.
    line(rt, 265, pack_refused(1, 7))?;
    line(rt, 266, pack_refused(1, 9))?;
    line(rt, 267, pack_refused(1, 0))?;
    line(rt, 268, unpack_refused(35))?;
    line(rt, 269, unpack_refused(37))?;
    line(rt, 270, unpack_refused(0))?;
    line(rt, 271, pack_refused(2, 7))
}
