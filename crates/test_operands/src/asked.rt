// The words that operands over a page edge answer.

// The first eight words of a fault: 64 of a load or store, 65 of a fetch.
pub fn fault(kind: u32, word: u32, address: u32) -> [u32; 8] {
    let (number, offset) = if kind == 0 { (65, 0x400) } else { (64, 0x300) };
    [number, word, offset, address, 0, 0, 0, 0]
}

// The first eight words of contradicting matches.
pub const CONTRADICTION: [u32; 8] = [10, 0, 0, 0, 0, 0, 0, 0];
