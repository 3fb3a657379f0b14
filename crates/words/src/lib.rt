// Words of 32 bits: reading and writing them in bytes, and the test for ones at the low end of a field.
#![tactic(auto)]

ghost use Rattle.std.specs.Prelude.{◌≡◌, ℕ, ◌+◌, ◌-◌, ◌*◌, ◌^◌, ◌≤◌, ◌<◌, eqb, length};
ghost use Rattle.std.specs.Float.Ieee.{size};
ghost use Rattle.words.specs.Ones.{low_ones};
ghost use Rattle.words.specs.Words.{word_of, word_at, swapped, with_word, bytes_of};

// Whether a field is ones only at its low end, where `whole` is the field that it was and n is 32 without its bits that are gone: the field
// without its lowest bit is asked again, and in the end the whole is compared with as many ones as it has bits.
// Stays a recursion: a binding form (docs/DECISIONS.md, forms).
fn low_ones_of(field: u32, whole: u32, n: u32) -> bool
    requires { (size field ≤ n) × (n ≤ 32) }
    ensures { result ≡ eqb whole (2 ^ (32 - (n - size field)) - 1) }
{
    if field == 0 {
        return whole as u64 == 0xFFFFFFFF >> n;
    }
    low_ones_of(field >> 1, whole, n - 1)
}

// Whether a field is ones only at its low end, 0 included.
pub fn low_ones(field: u32) -> bool
    ensures { result ≡ low_ones field }
{
    low_ones_of(field, field, 32)
}

// The place of the highest one of a field, counted from the low end, where n is 32 without the field's bits that are gone: the field without its
// lowest bit is asked again.
// Stays a recursion, where the library has `ilog2`: BL's ones at the low end are tested by it, a binding form (docs/DECISIONS.md, forms).
fn highest_of(field: u32, n: u32) -> u32
    requires { (size field ≤ n) × (n ≤ 32) × (n < 32 + size field) }
    ensures { result ≡ 31 - (n - size field) }
{
    if field == 0 {
        return 31 - n;
    }
    highest_of(field >> 1, n - 1)
}

// The place of the highest one of a field that is not 0, counted from the low end.
pub fn highest(field: u32) -> u32
    requires { 0 < field }
    ensures { (result + 1 ≡ size field) × (result < 32) }
{
    highest_of(field, 32)
}

// The word of four bytes, the most significant first.
pub fn word_of(a: u8, b: u8, c: u8, d: u8) -> u32
    ensures { result ≡ word_of a b c d }
{
    u32::from_be_bytes([a, b, c, d])
}

// The four bytes from `at` on as a little-endian machine loads them: the word with its bytes in reverse order.
// That its bytes are in the slice is asked here and in each function below: each has its own `at`, and a type of slice and place, made anew for each
// word, is no plainer.
pub fn raw_word(s: &[u8], at: usize) -> u32
    requires { at + 4 ≤ length s.now }
    ensures { result ≡ swapped (word_at s.now at) }
{
    u32::from_le_bytes([s[at], s[at + 1], s[at + 2], s[at + 3]])
}

// The big-endian word of the four bytes from `at` on.
#[tactic(auto, unfolding(crate::specs::Words::word_at))]
pub fn read_word(s: &[u8], at: usize) -> u32
    requires { at + 4 ≤ length s.now }
    ensures { result ≡ word_at s.now at }
{
    u32::from_be_bytes([s[at], s[at + 1], s[at + 2], s[at + 3]])
}

// The eight bytes from `at` on as a little-endian machine loads them.
// Stays a shift and an or of two words: by `from_le_bytes`, tried, the eight bytes of `read_pair` stand again, and tools/check_copies.py lets no code.
pub fn raw_pair(s: &[u8], at: usize) -> u64
    requires { at + 8 ≤ length s.now }
    ensures { result ≡ swapped (word_at s.now (at + 4)) * 2 ^ 32 + swapped (word_at s.now at) }
{
    ((raw_word(s, at + 4) as u64) << 32) | (raw_word(s, at) as u64)
}

// The two big-endian words of the eight bytes from `at` on, the first in the high half.
// Stays beside `raw_pair`: the order of the words differs too, so that one function with the reader as a parameter is no plainer.
#[tactic(auto, using(crate::proofs::Words::pair_from_high_end, crate::proofs::Words::word_lt))]
pub fn read_pair(s: &[u8], at: usize) -> u64
    requires { at + 8 ≤ length s.now }
    ensures { (result ≡ word_at s.now at * 2 ^ 32 + word_at s.now (at + 4))
        × (word_at s.now at < 2 ^ 32) × (word_at s.now (at + 4) < 2 ^ 32) }
{
    u64::from_be_bytes([
        s[at],
        s[at + 1],
        s[at + 2],
        s[at + 3],
        s[at + 4],
        s[at + 5],
        s[at + 6],
        s[at + 7],
    ])
}

// The word with its bytes in reverse order.
pub fn swapped(w: u32) -> u32
    ensures { result ≡ swapped w }
{
    w.swap_bytes()
}

// Whether the four bytes from `at` on are a word's, which is given with its bytes in reverse order: as a little-endian machine loads them, so
// that the comparison is all that is done for each of many words.
pub fn is_word(s: &[u8], at: usize, reversed: u32) -> bool
    requires { at + 4 ≤ length s.now }
    ensures { (word_at s.now at < 2 ^ 32)
        × ((w : ℕ) → w < 2 ^ 32 → reversed ≡ swapped w → result ≡ eqb (word_at s.now at) w) }
{
    raw_word(s, at) == reversed
}

// Writes a word, big-endian, to the four bytes from `at` on.
// Stays four stores from the low end, which the compiler makes one: `copy_from_slice` costs accesses up to 8 % more instructions, most 3 to 5.
pub fn write_word(s: &mut [u8], at: usize, w: u32)
    requires { at + 4 ≤ length s.old }
    ensures { s.new ≡ with_word s.old at w }
{
    let bytes = swapped(w).to_le_bytes();
    s[at] = bytes[0];
    s[at + 1] = bytes[1];
    s[at + 2] = bytes[2];
    s[at + 3] = bytes[3];
}

// Fills a slice with words, big-endian.
pub fn write_words(s: &mut [u8], words: &[u32])
    requires { length s.old ≡ 4 * length words.now }
    ensures { s.new ≡ bytes_of words.now }
{
    for (i, word) in words.iter().enumerate() {
        write_word(s, 4 * i, *word);
    }
}
