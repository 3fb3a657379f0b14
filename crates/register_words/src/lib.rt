// One register word: SDR1, a segment register, and a block pair's upper and lower word; their shapes and what a block covers.
#![tactic(auto)]

ghost use Rattle.std.specs.Prelude.{◌≡◌, ◌+◌, ◌-◌, ◌*◌, ◌/◌, ◌%◌, ◌^◌, Bool, true, false, ◌==◌, bit_and};
ghost use Rattle.register_words.specs.Sdr1.{sdr1_shape, table_length, hash_bits};
ghost use Rattle.register_words.specs.Asked.{pair_ones, bl_place, side_sum, zero_bits, last_of};
ghost use Rattle.register_words.specs.Segment.{no_execute, segment_vsid};
ghost use Rattle.register_words.specs.Block.{bl_width, off, block_attributes, block_pp, block_shape, clash, covers, in_block, block_physical};

// Whether SDR1 has its shape.
pub fn sdr1_shape(sdr1: u32) -> bool
    ensures { result ≡ sdr1_shape sdr1 }
{
    let mask = sdr1 & 0xFFFF;
    // The least table, of 64 KB, needs no further test.
    if mask == 0 {
        return true;
    }
    (mask < 512) & words::low_ones(mask) & ((sdr1 >> 16) & mask == 0)
}

// The length in bytes of the table of an SDR1.
#[tactic(auto, unfolding(crate::specs::Sdr1::table_length))]
pub fn table_length(sdr1: u32) -> usize
    ensures { result ≡ table_length sdr1 }
{
    65536 * ((sdr1 % 512) as usize + 1)
}

// The ones that a hash is masked with: the mask of SDR1 and ten ones below it.
pub fn hash_mask(sdr1: u32) -> u32
    requires { sdr1_shape sdr1 ≡ true }
    ensures { result ≡ 2 ^ hash_bits sdr1 - 1 }
{
    ((sdr1 & 0x1FF) << 10) | 0x3FF
}

// Whether N of a segment register is one: nothing is fetched from the segment.
pub fn no_execute(word: u32) -> bool
    ensures { result ≡ no_execute word }
{
    (word >> 28) & 1 == 1
}

// The VSID of a segment register.
#[tactic(auto, unfolding(crate::specs::Segment::segment_vsid))]
pub fn segment_vsid(word: u32) -> u32
    ensures { result ≡ segment_vsid word }
{
    word % 0x1000000
}

// As many ones as BL of a pair has bits, its upper word in the high half, in BEPI's, BL's and BRPN's places at once, and the low 17 bits all ones.
// Pair and ones stay two numbers here and in the two functions below: one loop alone has them, for three lines, and a struct for it is no plainer.
pub fn ones_of(pair: u64) -> u64
    ensures { result ≡ pair_ones (pair / 2 ^ 32) }
{
    // BL from bit 17 on, with a one below it.
    let field = (((pair >> 17) % 0x100000000) as u32) | 0x10000;
    (0x200040002u64 << words::highest(field)).wrapping_sub(0x2000400000001)
}

// What is asked of a pair that is on, `ones` those of its length and `lengths` the place of BL on its page, whose bits are turned, so that BL's ones are
// zeros too. Where `sum` is added W and I of one block show together in the bit above them. The bits that must be zero are zero exactly where the pair
// has the shape of its side's blocks.
pub fn asked_of(pair: u64, ones: u64, lengths: u64, sum: u64) -> u64
    requires { ones ≡ pair_ones (pair / 2 ^ 32) }
    ensures { (long side : Bool) → lengths ≡ bl_place long → sum ≡ side_sum side → off (pair / 2 ^ 32) ≡ false
        → (bit_and result (zero_bits side) == 0) ≡ block_shape (bl_width long) side (pair / 2 ^ 32) (pair % 2 ^ 32) }
{
    let asked = (pair ^ lengths) & ones;
    asked | asked.wrapping_add(sum)
}

// The end of a pair's block, `ones` those of its length: a pair whose block begins behind it is a greater number.
pub fn end_of(pair: u64, ones: u64) -> u64
    requires { ones ≡ pair_ones (pair / 2 ^ 32) }
    ensures { result ≡ last_of (pair / 2 ^ 32) * 2 ^ 49 + (2 ^ 49 - 1) }
{
    pair | ones | 0x1FFFFFFFFFFFF
}

// Whether two blocks have a V bit in common and share an effective address. Here and below BL has 15 bits, of which a short page's blocks use 11.
pub fn blocks_clash(first: u32, second: u32) -> bool
    ensures { result ≡ clash (bl_width true) first second }
{
    // The BL bits of either in the places of BEPI, with ones below: what is left are the bits in which the two starts must agree.
    let either = (first << 15) | ((second << 15) | 0x1FFFF);
    (first & second & 3 != 0) & (first | either == second | either)
}

// Whether the address with the block's BL bits and the low 17 removed is the block's start.
pub fn in_block(upper: u32, address: u32) -> bool
    ensures { result ≡ in_block (bl_width true) upper address }
{
    // The address's complement with ones under BL is the complement of what must be BEPI: the two differ in all of bits 0 to 14.
    ((address ^ 0xFFFFFFFF) | (upper << 15)) ^ upper >= 0xFFFE0000
}

// Whether a block is valid for the user or the supervisor and holds the address.
// A pair stays two words, here and below: the test of a covering pair needs the upper word alone, and `block_physical` of specs/ takes both.
pub fn block_covers(user: bool, upper: u32, address: u32) -> bool
    ensures { result ≡ covers (bl_width true) user upper address }
{
    let valid = if user { 1 } else { 2 };
    (upper & valid != 0) & in_block(upper, address)
}

// The physical address of an address in a block.
pub fn block_physical(upper: u32, lower: u32, address: u32) -> u32
    ensures { result ≡ block_physical (bl_width true) upper lower address }
{
    let start = (lower >> 17) | ((address >> 17) & ((upper >> 2) & 0x7FFF));
    (start << 17) | (address & 0x1FFFF)
}

// WIMG of a block's lower word.
// This and `block_pp` stay beside `entry::wimg_of` and `entry::pp_of`: `block_attributes` and `block_pp` of specs/ stand apart from an entry's.
pub fn block_attributes(lower: u32) -> u32
    ensures { result ≡ block_attributes lower }
{
    (lower >> 3) & 0xF
}

// PP of a block's lower word.
#[tactic(auto, unfolding(crate::specs::Block::block_pp))]
pub fn block_pp(lower: u32) -> u32
    ensures { result ≡ block_pp lower }
{
    lower % 4
}
