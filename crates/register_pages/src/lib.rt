// A register page's bytes: the check of all its words, a word replaced, the pair that covers an address, and the words that an access reads.
#![tactic(auto)]

ghost use Rattle.std.specs.Prelude.{◌≡◌, true, false, ◌+◌, ◌*◌, ◌/◌, ◌%◌, ◌≤◌, ◌<◌, IfSome, length, cond};
ghost use Rattle.numbers.specs.Numbers.{done, refused_segment};
ghost use Rattle.numbers.specs.Refused.{result_number};
ghost use Rattle.register_words.specs.Block.{bl_width};
ghost use Rattle.registers.specs.Set.{is_page, is_long, block_pairs, sdr1_of, segment_of, segments_shape, upper_of, lower_of, check_words, covering_pair, register_words, set_words};
ghost use Rattle.register_pages.specs.Side.{side_byte, Gathered, pairs_off, apart_from, pairs_apart, blocks_refusal};
ghost use Rattle.register_pages.specs.Pair.{pair_number};
ghost use Rattle.register_pages.specs.Replace.{page_replaced, page_after};

mod register_page;

use numbers::Refusal;
pub use register_page::RegisterPage;

// What a pass over the pairs of a side gathers of those that are on: what is asked of each, put together by or, and how many begin at or before the end
// of the one before.
#[derive(Clone, Copy)]
struct Side {
    any: u64,
    falls: u32,
}

// The pass over the pairs of a side. `lengths` is the place of BL on the page; `sum` is added, so that W and I of one block show together. Four pairs at
// a time, for the compiler writes the inner loop out; `for` over the pairs' bytes, tried, makes a check 15 % slower, over the fours' numbers 1.5 %.
fn side_of(pairs: &[u8], lengths: u64, sum: u64) -> Side
    requires { (length pairs.now % 32 ≡ 0) × (length pairs.now ≤ 64) }
    ensures { Gathered lengths sum pairs.now result }
{
    let mut any: u64 = 0;
    let mut falls: u32 = 0;
    let mut end: u64 = 0;
    let mut at: usize = 0;
    while at < pairs.len() {
        for i in 0..4usize {
            let from = at + 8 * i;
            // A pair that is off may hold anything.
            if pairs[from + 3] & 3 != 0 {
                let pair = words::read_pair(pairs, from);
                let ones = register_words::ones_of(pair);
                any = any | register_words::asked_of(pair, ones, lengths, sum);
                falls = falls + ((pair <= end) as u32);
                end = register_words::end_of(pair, ones);
            }
        }
        at += 32;
    }
    Side { any, falls }
}

// Whether a block shares an address and a V bit with none of the pairs before a byte. `for` over their numbers, tried, makes a check of blocks in
// falling order 4 % slower.
fn pair_apart(pairs: &[u8], at: usize, own: u32) -> bool
    requires { (at ≤ length pairs.now) × (at % 8 ≡ 0) }
    ensures { result ≡ apart_from pairs.now own (at / 8) }
{
    let mut before: usize = 0;
    while before < at {
        if register_words::blocks_clash(words::read_word(pairs, before), own) {
            return false;
        }
        before += 8;
    }
    true
}

// Whether no two pairs of a side share an address and a V bit. `for` over their numbers, tried, makes every check 3 % slower.
fn side_apart(pairs: &[u8]) -> bool
    requires { length pairs.now % 8 ≡ 0 }
    ensures { result ≡ pairs_apart pairs.now (length pairs.now / 8) }
{
    let mut at: usize = 0;
    while at < pairs.len() {
        let own = words::read_word(pairs, at);
        // A pair that is off shares nothing, so it is not compared.
        if own & 3 != 0 {
            if !pair_apart(pairs, at, own) {
                return false;
            }
        }
        at += 8;
    }
    true
}

// Whether one of these pairs is on.
fn any_on(pairs: &[u8]) -> bool
    ensures { result ≡ false → pairs_off pairs.now (length pairs.now / 8) ≡ true }
{
    for i in 0..pairs.len() / 8 {
        if pairs[8 * i + 3] & 3 != 0 {
            return true;
        }
    }
    false
}

impl RegisterPage<'_> {
    // The rules of a page's blocks: the first that they break, of one that has not its shape or of two that share an address.
    fn blocks_refusal(self) -> Result<(), Refusal>
        ensures { result_number result ≡ blocks_refusal (is_long (length self.entry.bytes.now)) (register_words self.entry.bytes.now) }
    {
        let half = (self.bytes.len() - 68) / 2;
        // The place of BL, of 15 bits on a long page and of 11 on a short one.
        let lengths = if half == 64 {
            0x1FFFC00000000
        } else {
            0x1FFC00000000
        };
        let mut good = true;
        let mut apart = true;
        for side in 0..2usize {
            let at = 68 + side * half;
            let to = at + half;
            let seen = side_of(&self.bytes[at..to], lengths, 32 * side as u64);
            // Of an instruction pair W and G are zero too.
            good = good & (seen.any & (0xFFFFFFFFFFFFFFCC - 0x48 * side as u64) == 0);
            if seen.falls != 0 {
                apart = apart & side_apart(&self.bytes[at..to]);
            }
        }
        if good & apart {
            return Ok(());
        }
        Err(if good {
            Refusal::BlocksShare
        } else {
            Refusal::Block
        })
    }

    // Whether a block of the page is on.
    fn blocks_on(self) -> bool
        ensures { result ≡ false → blocks_refusal (is_long (length self.entry.bytes.now)) (register_words self.entry.bytes.now) ≡ 0 }
    {
        if any_on(&self.bytes[68..132]) {
            return true;
        }
        if self.bytes.len() == numbers::REGISTERS_SIZE_LONG {
            return any_on(&self.bytes[132..196]);
        }
        false
    }

    // The rule of the sixteen segment registers, which are put together by or as they lie in memory, two at a time.
    fn segments_refusal(self) -> Result<(), Refusal>
        ensures { result_number result ≡ cond (segments_shape (register_words self.entry.bytes.now)) done refused_segment }
    {
        let mut any: u64 = 0;
        for i in 0..8usize {
            any = any | words::raw_pair(self.bytes, 4 + 8 * i);
        }
        if any & 0x8F0000008F == 0 {
            Ok(())
        } else {
            Err(Refusal::Segment)
        }
    }

    // The rules of a register page in their order: the first that it breaks.
    pub fn check(self) -> Result<(), Refusal>
        ensures { result_number result ≡ check_words (block_pairs (is_long (length self.entry.bytes.now)))
            (bl_width (is_long (length self.entry.bytes.now))) (register_words self.entry.bytes.now) }
    {
        if !register_words::sdr1_shape(words::read_word(self.bytes, 0)) {
            return Err(Refusal::Sdr1);
        }
        // Asked before the blocks, so that on a page whose blocks are off no registers are saved.
        let segments = self.segments_refusal();
        if !self.blocks_on() {
            return segments;
        }
        self.blocks_refusal()?;
        segments
    }
}

// The register set by value: the bytes of a page of N.
#[derive(Clone, Copy)]
pub struct Set<const N: usize> {
    pub bytes: [u8; N],
}

impl<const N: usize> Set<N> {
    // The set with one word changed, or the refusal.
    pub fn with_word(self, number: u32, word: u32) -> Result<Set<N>, Refusal>
        requires { is_page N ≡ true }
        ensures { (result_number result, page_after self.entry.bytes result) ≡ page_replaced self.entry.bytes number word }
    {
        if number >= registers::count_of(N == numbers::REGISTERS_SIZE_LONG) {
            return Err(Refusal::Argument);
        }
        let mut bytes = [0; N];
        copy(&mut bytes, &self.bytes);
        words::write_word(&mut bytes, 4 * (number as usize), word);
        RegisterPage { bytes: &bytes }.check()?;
        let mut new = Set { bytes: [0; N] };
        copy(&mut new.bytes, &bytes);
        Ok(new)
    }
}

// Copies a page in two parts, each short enough that the compiler copies it without a call.
#[inline(always)]
fn copy(to: &mut [u8], from: &[u8])
    requires { (length to.old ≡ length from.now) × (68 ≤ length from.now) }
    ensures { to.new ≡ from.now }
{
    let size = to.len();
    to[..68].copy_from_slice(&from[..68]);
    to[68..].copy_from_slice(&from[68..size]);
}

// Replaces one word of a page of N bytes, or tells the refusal: the page is read into a set, and gets the word of the new set, in which every other
// byte is the old one's.
fn set_word_of<const N: usize>(page: &mut [u8], number: u32, word: u32) -> Result<(), Refusal>
    requires { (length page.old ≡ N) × (is_page N ≡ true) }
    ensures { (result_number result, page.new) ≡ page_replaced page.old number word }
{
    let mut bytes = [0; N];
    copy(&mut bytes, page);
    let new = Set { bytes }.with_word(number, word)?;
    // The set as it was is not read any more.
    copy(&mut bytes, &new.bytes);
    let byte = 4 * (number as usize);
    words::write_word(page, byte, words::read_word(&bytes, byte));
    Ok(())
}

// Replaces one word of a page, or tells the refusal, and then the page is as it was.
pub fn set_word(page: &mut [u8], number: u32, word: u32) -> Result<(), Refusal>
    requires { is_page (length page.old) ≡ true }
    ensures { (result_number result, page.new) ≡ page_replaced page.old number word }
{
    if page.len() == numbers::REGISTERS_SIZE_LONG {
        set_word_of::<{ numbers::REGISTERS_SIZE_LONG }>(page, number, word)
    } else {
        set_word_of::<{ numbers::REGISTERS_SIZE_SHORT }>(page, number, word)
    }
}

// The byte at which a side's pairs begin.
fn side_at(size: usize, side: bool) -> usize
    requires { is_page size ≡ true }
    ensures { result ≡ side_byte (is_long size) side }
{
    if side { size / 2 + 34 } else { 68 }
}

// The byte of a pair of a side, which lies on the page.
fn pair_at(size: usize, side: bool, i: usize) -> usize
    requires { (is_page size ≡ true) × (i < block_pairs (is_long size)) }
    ensures { (result ≡ side_byte (is_long size) side + 8 * i) × (result + 8 ≤ size) }
{
    side_at(size, side) + 8 * i
}

impl RegisterPage<'_> {
    // The first pair of a side that covers the address for the user or the supervisor. Four pairs at a time, for the compiler writes the inner loop out;
    // a loop over the pairs one by one, or `find`, tried, makes the rights of a page 7 % slower.
    #[inline]
    pub fn covering_pair(self, side: bool, user: bool, address: u32) -> Option<usize>
        ensures number { pair_number result ≡ covering_pair (block_pairs true) (bl_width true) (set_words self.entry.bytes.now) side user address }
        ensures own { IfSome result (λ i. i < block_pairs (is_long (length self.entry.bytes.now))) }
    {
        let start = side_at(self.bytes.len(), side);
        let pairs = (self.bytes.len() - 68) / 16;
        for four in 0..pairs / 4 {
            for i in 4 * four..4 * four + 4 {
                let upper = words::read_word(self.bytes, start + 8 * i);
                if register_words::block_covers(user, upper, address) {
                    return Some(i);
                }
            }
        }
        None
    }

    // The upper and the lower word of a pair of the page.
    pub fn pair(self, side: bool, i: usize) -> (u32, u32)
        requires { i < block_pairs (is_long (length self.bytes.now)) }
        ensures { result ≡ (
          upper_of (block_pairs true) (set_words self.entry.bytes.now) side i,
          lower_of (block_pairs true) (set_words self.entry.bytes.now) side i,
        ) }
    {
        let at = pair_at(self.bytes.len(), side, i);
        (
            words::read_word(self.bytes, at),
            words::read_word(self.bytes, at + 4),
        )
    }

    // A segment register of the page.
    pub fn segment(self, i: usize) -> u32
        requires { i < 16 }
        ensures { result ≡ segment_of (set_words self.entry.bytes.now) i }
    {
        words::read_word(self.bytes, 4 + 4 * i)
    }

    // SDR1 of the page.
    pub fn sdr1(self) -> u32
        ensures { result ≡ sdr1_of (set_words self.entry.bytes.now) }
    {
        words::read_word(self.bytes, 0)
    }
}
