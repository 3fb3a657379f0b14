// A page table entry: its two words packed and unpacked, the match test, the marks R and C, PP, and the physical address that it gives.
#![tactic(auto)]

ghost use Rattle.std.specs.Prelude.{◌≡◌, cond, ℕ, ◌<◌, ◌^◌, eqb};
ghost use Rattle.words.specs.Words.{swapped};
ghost use Rattle.words.specs.Bits.{bits};
ghost use Rattle.entry.specs.Entry.{first_word, second_word, within_widths, packed, packed_words, wimg_of, pp_of, unpacked, free};
ghost use Rattle.entry.specs.Entry.{referenced, changed, with_marks, with_pp, physical_address, page_index, api_of};

use numbers::Refusal;

// The fields of an entry.
#[derive(Clone, Copy, PartialEq, Eq, Debug, Drop)]
pub struct Fields {
    pub v: u32,
    pub vsid: u32,
    pub h: u32,
    pub api: u32,
    pub rpn: u32,
    pub r: u32,
    pub c: u32,
    pub wimg: u32,
    pub pp: u32,
}

// The two words of an entry.
#[derive(Clone, Copy, PartialEq, Eq, Debug, Drop)]
pub struct Words {
    pub first: u32,
    pub second: u32,
}

// The first word of an entry.
// Packing stays by shifts and masks, here and below: a binding form (docs/DECISIONS.md, forms).
pub fn first_word(v: u32, vsid: u32, h: u32, api: u32) -> u32
    requires { (v < 2 ^ 1) × (vsid < 2 ^ 24) × (h < 2 ^ 1) × (api < 2 ^ 6) }
    ensures { result ≡ first_word v vsid h api }
{
    (v << 31) | (vsid << 7) | (h << 6) | api
}

// The second word of an entry, its ignored bits zero.
pub fn second_word(rpn: u32, r: u32, c: u32, wimg: u32, pp: u32) -> u32
    requires { (rpn < 2 ^ 20) × (r < 2 ^ 1) × (c < 2 ^ 1) × (wimg < 2 ^ 4) × (pp < 2 ^ 2) }
    ensures { result ≡ second_word rpn r c wimg pp }
{
    (rpn << 12) | (r << 8) | (c << 7) | (wimg << 3) | pp
}

// Whether each field is within its width. The four fields of one bit are put together by or and asked once.
pub fn within_widths(f: Fields) -> bool
    ensures { result ≡ within_widths f }
{
    ((f.v | f.h | f.r | f.c) < 2)
        & (f.vsid < 0x1000000)
        & (f.api < 64)
        & (f.rpn < 0x100000)
        & (f.wimg < 16)
        & (f.pp < 4)
}

// Packs fields into the two words of an entry. A field past its width is a refused argument.
pub fn pack(f: Fields) -> Result<Words, Refusal>
    ensures { packed_words result ≡ packed f }
{
    if !within_widths(f) {
        return Err(Refusal::Argument);
    }
    Ok(Words {
        first: first_word(f.v, f.vsid, f.h, f.api),
        second: second_word(f.rpn, f.r, f.c, f.wimg, f.pp),
    })
}

// Unpacks any two words into fields.
#[tactic(auto, unfolding(crate::specs::Entry::unpacked))]
pub fn unpack(words: Words) -> Fields
    ensures { result ≡ unpacked words.first words.second }
{
    let Words { first, second } = words;
    Fields {
        v: first >> 31,
        vsid: (first >> 7) & 0xFFFFFF,
        h: (first >> 6) & 1,
        api: first & 0x3F,
        rpn: second >> 12,
        r: (second >> 8) & 1,
        c: (second >> 7) & 1,
        wimg: (second >> 3) & 0xF,
        pp: second & 3,
    }
}

// The first word of an entry that matches: V is 1, and VSID, H and API are these, which are the whole word. Its bytes are in reverse order, as
// they are compared.
pub fn match_word(vsid: u32, h: u32, api: u32) -> u32
    requires { (vsid < 2 ^ 24) × (h < 2 ^ 1) × (api < 2 ^ 6) }
    ensures { result ≡ swapped (first_word 1 vsid h api) }
{
    words::swapped(first_word(1, vsid, h, api))
}

// The word that matches in the secondary group, by the one that matches in the primary: with H set too, which is bit 25. In reverse order the
// last byte stands first.
pub fn secondary_word(primary: u32) -> u32
    ensures { (vsid api : ℕ) → vsid < 2 ^ 24 → api < 2 ^ 6 → primary ≡ swapped (first_word 1 vsid 0 api) → result ≡ swapped (first_word 1 vsid 1 api) }
{
    primary | 0x40000000
}

// The first word of a page's entry in its primary (false) or secondary group (true), by the word that matches in the primary.
// Stays beside `Located::wanted_in` of groups, the same in reverse order: `page_calls::map_page` calls it, and a public function keeps its promise.
pub fn first_in(secondary: bool, primary: u32) -> u32
    ensures { (vsid api : ℕ) → vsid < 2 ^ 24 → api < 2 ^ 6 → primary ≡ swapped (first_word 1 vsid 0 api) → result ≡ first_word 1 vsid (cond secondary 1 0) api }
{
    let wanted = if secondary {
        secondary_word(primary)
    } else {
        primary
    };
    words::swapped(wanted)
}

// Whether the entry of a first word is free: V is 0.
#[tactic(auto, unfolding(crate::specs::Entry::free))]
pub fn is_free(first: u32) -> bool
    ensures { result ≡ free first }
{
    first >> 31 == 0
}

// Whether R is set in a second word.
// This and `is_changed` stay two: each is a sentence of the rules by its own name, and one function with the bit as a number is no plainer.
#[tactic(auto, unfolding(crate::specs::Entry::referenced))]
pub fn is_referenced(second: u32) -> bool
    ensures { result ≡ referenced second }
{
    (second >> 8) & 1 == 1
}

// Whether C is set in a second word.
#[tactic(auto, unfolding(crate::specs::Entry::changed))]
pub fn is_changed(second: u32) -> bool
    ensures { result ≡ changed second }
{
    (second >> 7) & 1 == 1
}

// A second word with R set if the page was referenced and C if it was changed.
pub fn with_marks(second: u32, referenced: bool, changed: bool) -> u32
    ensures { result ≡ with_marks referenced changed second }
{
    second | (u32::from(referenced) << 8) | (u32::from(changed) << 7)
}

// A second word with another PP.
pub fn with_pp(second: u32, pp: u32) -> u32
    requires { pp < 2 ^ 2 }
    ensures { result ≡ with_pp pp second }
{
    (second & 0xFFFFFFFC) | pp
}

// The VSID of a first word.
// What is read of one word stays a function of it: a search and a cache read one word of the two, and a `Words` would have to be made for it.
pub fn vsid_of(first: u32) -> u32
    ensures { result ≡ bits 1 24 first }
{
    (first >> 7) & 0xFFFFFF
}

// Whether H of a first word is one: the entry stands in the secondary group of its page.
pub fn is_secondary(first: u32) -> bool
    ensures { result ≡ eqb (bits 25 25 first) 1 }
{
    (first >> 6) & 1 == 1
}

// WIMG of a second word.
pub fn wimg_of(second: u32) -> u32
    ensures { result ≡ wimg_of second }
{
    (second >> 3) & 0xF
}

// PP of a second word.
pub fn pp_of(second: u32) -> u32
    ensures { result ≡ pp_of second }
{
    second % 4
}

// The physical address of an effective one, by the entry's second word.
pub fn physical_address(second: u32, address: u32) -> u32
    ensures { result ≡ physical_address second address }
{
    (second & 0xFFFFF000) | (address & 0xFFF)
}

// The page index of an effective address.
#[tactic(auto, unfolding(crate::specs::Entry::page_index))]
pub fn page_index(address: u32) -> u32
    ensures { result ≡ page_index address }
{
    (address >> 12) & 0xFFFF
}

// The API of a page index.
#[tactic(auto, unfolding(crate::specs::Entry::api_of))]
pub fn api_of(index: u32) -> u32
    ensures { result ≡ api_of index }
{
    index >> 10
}
