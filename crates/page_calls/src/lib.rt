// The work of the page calls on a lent table: which refusal the arguments give, and map, unmap, protect and look in the page's two groups.
#![tactic(auto)]

ghost use Rattle.std.specs.Prelude.{◌≡◌, not, [], ◌∷◌, ℕ, ◌<◌, ◌^◌, length};
ghost use Rattle.std.specs.Result.{result_unwrap_or};
ghost use Rattle.numbers.specs.Numbers.{refused_argument};
ghost use Rattle.numbers.specs.Refused.{result_number};
ghost use Rattle.registers.specs.Rules.{first_broken};
ghost use Rattle.register_words.specs.Sdr1.{mask_ones};
ghost use Rattle.groups.specs.Page.{InRange};
ghost use Rattle.groups.specs.Hash.{TableOf, SomeTable, located};
ghost use Rattle.theory_calls.specs.Request.{map_page, unmap, protect, look};
ghost use Rattle.theory_calls.specs.Rules.{page_in_range, map_in_range, table_rules};
ghost use Rattle.theory_calls.specs.OnBytes.{ended, bytes_do};
ghost use Rattle.page_calls.specs.PageWork.{page_told, page_edited, page_answer};

use groups::Page;
use match_edits::{Edit, Pp};
use matches::Others;
use numbers::Refusal;

// Whether a VSID and a page index are in their ranges.
#[tactic(auto, unfolding(theory_calls::specs::Rules::page_in_range))]
pub fn page_in_range(page: Page) -> bool
    ensures { result ≡ page_in_range page }
{
    (page.vsid < 0x1000000) & (page.index < 0x10000)
}

// Whether map's arguments are in their ranges, W and I not both one.
pub fn map_in_range(page: Page, rpn: u32, wimg: u32, pp: u32) -> bool
    ensures { (sdr1 : ℕ) → result ≡ map_in_range (record { sdr1 = sdr1; page = page; rpn = rpn; wimg = wimg; pp = pp }) }
{
    page_in_range(page) & (rpn < 0x100000) & (wimg < 12) & (pp < 4)
}

// The refusal by the arguments' ranges, by SDR1 and by the table's length, in this order.
pub fn page_refusal(fits: bool, sdr1: u32, lent: usize) -> Result<(), Refusal>
    ensures { result_number result ≡ first_broken ((not fits, refused_argument) ∷ table_rules sdr1 lent) }
{
    if !fits {
        return Err(Refusal::Argument);
    }
    if !register_words::sdr1_shape(sdr1) {
        return Err(Refusal::Sdr1);
    }
    if lent != register_words::table_length(sdr1) {
        return Err(Refusal::TableLength);
    }
    Ok(())
}

// Where a page's entries are, and what the search of its two groups tells. (It is joined with every caller, or a look would take 317 instructions in
// place of 110.)
#[inline(always)]
pub fn search(page: Page, table: &[u8]) -> (groups::Located, matches::Told)
    requires { SomeTable (length table.now) × InRange page }
    ensures { (sdr1 : ℕ) → TableOf sdr1 (length table.now)
        → result ≡ (located (mask_ones sdr1) page, page_told (mask_ones sdr1) page table.now) }
{
    let at = groups::locate(table.len(), page);
    (at, matches::search_page(table, at))
}

// Maps a page that has no match: its entry goes into the first free place of its two groups.
// RPN, WIMG and PP stay numbers with their widths in a clause: `map_in_range` asks each once, and a type of each for this one call is no plainer.
pub fn map_page(page: Page, rpn: u32, wimg: u32, pp: u32, table: &mut [u8]) -> Result<(), Refusal>
    requires { SomeTable (length table.old) × InRange page × (rpn < 2 ^ 20) × (wimg < 2 ^ 4) × (pp < 2 ^ 2) }
    ensures { (sdr1 : ℕ) → TableOf sdr1 (length table.old) → ended (result_number result) table.new []
        ≡ bytes_do (mask_ones sdr1) (map_page (record { sdr1 = sdr1; page = page; rpn = rpn; wimg = wimg; pp = pp })) table.old }
{
    let (at, told) = search(page, table);
    if told.first.is_some() {
        return Err(Refusal::Mapped);
    }
    let Some(place) = groups::free_place(told.free) else {
        return Err(Refusal::Full);
    };
    let first = entry::first_in(place.secondary, at.wanted);
    let second = entry::second_word(rpn, 0, 0, wimg, pp);
    let group = at.group(place.secondary);
    groups::put_entry(table, group, place.entry, first, second);
    Ok(())
}

// Edits each match of a page. The answer is the first match's second word as it was, with the marks of all. (It is joined with both callers, or a protect
// would take 149 instructions in place of 115.)
#[inline(always)]
fn edit_page(page: Page, edit: Edit, table: &mut [u8]) -> Result<u32, Refusal>
    requires { SomeTable (length table.old) × InRange page }
    ensures { (sdr1 : ℕ) → TableOf sdr1 (length table.old)
        → (result_number result, (table.new, result_unwrap_or result 0)) ≡ page_edited (mask_ones sdr1) page edit table.old }
{
    let (at, told) = search(page, table);
    let Some(first) = told.first else {
        return Err(Refusal::NoMatch);
    };
    Ok(match_edits::edit_page(table, at, first, edit))
}

// Unmaps a page: each match becomes eight zero bytes.
pub fn unmap_page(page: Page, table: &mut [u8]) -> Result<u32, Refusal>
    requires { SomeTable (length table.old) × InRange page }
    ensures { (sdr1 : ℕ) → TableOf sdr1 (length table.old) → ended (result_number result) table.new (page_answer result)
        ≡ bytes_do (mask_ones sdr1) (unmap (record { sdr1 = sdr1; page = page; answer = [] })) table.old }
{
    edit_page(page, Edit::Clear, table)
}

// Puts another PP into each match of a page.
pub fn protect_page(page: Page, pp: u32, table: &mut [u8]) -> Result<(), Refusal>
    requires { SomeTable (length table.old) × InRange page × (pp < 2 ^ 2) }
    ensures { (sdr1 : ℕ) → TableOf sdr1 (length table.old) → ended (result_number result) table.new []
        ≡ bytes_do (mask_ones sdr1) (protect (record { sdr1 = sdr1; page = page; pp = pp })) table.old }
{
    edit_page(page, Edit::Protect(Pp { value: pp }), table)?;
    Ok(())
}

// Looks a page up.
pub fn look_page(page: Page, table: &[u8]) -> Result<u32, Refusal>
    requires { SomeTable (length table.now) × InRange page }
    ensures { (sdr1 : ℕ) → TableOf sdr1 (length table.now) → ended (result_number result) table.now (page_answer result)
        ≡ bytes_do (mask_ones sdr1) (look (record { sdr1 = sdr1; page = page; answer = [] })) table.now }
{
    let (_, told) = search(page, table);
    let Some(first) = told.first else {
        return Err(Refusal::NoMatch);
    };
    if first.others == Others::Differing {
        return Err(Refusal::Contradiction);
    }
    Ok(first.second)
}
