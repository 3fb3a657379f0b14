// The exported calls on one page of a lent table, and the clear of a table: a refusal by the arguments or the work, and the answer.
ghost use Rattle.std.specs.Prelude.{◌≡◌, List, [], ℕ, length};
ghost use Rattle.numbers.specs.Numbers.{answer_size};
ghost use Rattle.numbers.specs.Refused.{result_number};
ghost use Rattle.theory_calls.specs.Request.{clear, map_page, unmap, protect, look};
ghost use Rattle.theory_calls.specs.OnBytes.{ended, on_bytes};
ghost use Rattle.page_calls.specs.PageWork.{page_answer};

use groups::Page;
use numbers::Refusal;

// Zeroes the table, where its arguments do not refuse it.
fn clear(sdr1: u32, table: &mut [u8]) -> Result<(), Refusal>
    ensures { ended (result_number result) table.new [] ≡ on_bytes (clear (record { sdr1 = sdr1 })) table.old }
{
    page_calls::page_refusal(true, sdr1, table.len())?;
    groups::clear(table);
    Ok(())
}

// Zeroes the table.
#[unsafe(no_mangle)]
pub extern "C" fn mmu_clear(sdr1: u32, table: &mut [u8]) -> u32
    ensures { ended result table.new [] ≡ on_bytes (clear (record { sdr1 = sdr1 })) table.old }
{
    numbers::result_of(clear(sdr1, table))
}

// Maps a page, where its arguments do not refuse it.
fn map(sdr1: u32, page: Page, rpn: u32, wimg: u32, pp: u32, table: &mut [u8]) -> Result<(), Refusal>
    ensures { ended (result_number result) table.new []
        ≡ on_bytes (map_page (record { sdr1 = sdr1; page = page; rpn = rpn; wimg = wimg; pp = pp })) table.old }
{
    let fits = page_calls::map_in_range(page, rpn, wimg, pp);
    page_calls::page_refusal(fits, sdr1, table.len())?;
    page_calls::map_page(page, rpn, wimg, pp, table)
}

// Maps a page.
#[unsafe(no_mangle)]
pub extern "C" fn mmu_map(
    sdr1: u32,
    vsid: u32,
    index: u32,
    rpn: u32,
    wimg: u32,
    pp: u32,
    table: &mut [u8],
) -> u32
    ensures { ended result table.new []
        ≡ on_bytes (map_page (record { sdr1 = sdr1; page = record { vsid = vsid; index = index }; rpn = rpn; wimg = wimg; pp = pp })) table.old }
{
    let page = Page { vsid, index };
    numbers::result_of(map(sdr1, page, rpn, wimg, pp, table))
}

// Writes an answer: the result number, the second entry word, 0, 0. It hands the number on.
#[tactic(auto, unfolding(theory_calls::specs::Answers::word_answer))]
fn write_answer(answer: &mut [u8], told: Result<u32, Refusal>) -> u32
    requires { length answer.old ≡ answer_size }
    ensures { (result ≡ result_number told) × (answer.new ≡ page_answer told) }
{
    let (number, word) = match told {
        Ok(word) => (numbers::DONE, word),
        Err(refusal) => (u32::from(refusal), 0),
    };
    words::write_words(answer, &[number, word, 0, 0]);
    number
}

// Unmaps a page, where its arguments do not refuse it.
fn unmap(sdr1: u32, page: Page, table: &mut [u8]) -> Result<u32, Refusal>
    ensures { (answer : List ℕ) → length answer ≡ answer_size → ended (result_number result) table.new (page_answer result)
        ≡ on_bytes (unmap (record { sdr1 = sdr1; page = page; answer = answer })) table.old }
{
    page_calls::page_refusal(page_calls::page_in_range(page), sdr1, table.len())?;
    page_calls::unmap_page(page, table)
}

// Unmaps a page. The answer has the first match's second word, with the marks of all.
#[tactic(auto, using(theory_calls::proofs::PageCalls::unmap_11))]
#[unsafe(no_mangle)]
pub extern "C" fn mmu_unmap(
    sdr1: u32,
    vsid: u32,
    index: u32,
    table: &mut [u8],
    answer: &mut [u8],
) -> u32
    ensures { ended result table.new answer.new
        ≡ on_bytes (unmap (record { sdr1 = sdr1; page = record { vsid = vsid; index = index }; answer = answer.old })) table.old }
{
    if answer.len() != numbers::ANSWER_SIZE {
        return u32::from(Refusal::LentLength);
    }
    let page = Page { vsid, index };
    write_answer(answer, unmap(sdr1, page, table))
}

// Puts another PP into a page's entries, where its arguments do not refuse it.
fn protect(sdr1: u32, page: Page, pp: u32, table: &mut [u8]) -> Result<(), Refusal>
    ensures { ended (result_number result) table.new []
        ≡ on_bytes (protect (record { sdr1 = sdr1; page = page; pp = pp })) table.old }
{
    let fits = page_calls::page_in_range(page) & (pp < 4);
    page_calls::page_refusal(fits, sdr1, table.len())?;
    page_calls::protect_page(page, pp, table)
}

// Puts another PP into a page's entries.
#[unsafe(no_mangle)]
pub extern "C" fn mmu_protect(sdr1: u32, vsid: u32, index: u32, pp: u32, table: &mut [u8]) -> u32
    ensures { ended result table.new []
        ≡ on_bytes (protect (record { sdr1 = sdr1; page = record { vsid = vsid; index = index }; pp = pp })) table.old }
{
    let page = Page { vsid, index };
    numbers::result_of(protect(sdr1, page, pp, table))
}

// Looks a page up, where its arguments do not refuse it.
fn look(sdr1: u32, page: Page, table: &[u8]) -> Result<u32, Refusal>
    ensures { (answer : List ℕ) → length answer ≡ answer_size → ended (result_number result) table.now (page_answer result)
        ≡ on_bytes (look (record { sdr1 = sdr1; page = page; answer = answer })) table.now }
{
    page_calls::page_refusal(page_calls::page_in_range(page), sdr1, table.len())?;
    page_calls::look_page(page, table)
}

// Looks a page up. The answer has the first match's second word.
#[tactic(auto, using(theory_calls::proofs::PageCalls::look_11))]
#[unsafe(no_mangle)]
pub extern "C" fn mmu_look(sdr1: u32, vsid: u32, index: u32, table: &[u8], answer: &mut [u8]) -> u32
    ensures { ended result table.now answer.new
        ≡ on_bytes (look (record { sdr1 = sdr1; page = record { vsid = vsid; index = index }; answer = answer.old })) table.now }
{
    if answer.len() != numbers::ANSWER_SIZE {
        return u32::from(Refusal::LentLength);
    }
    let page = Page { vsid, index };
    write_answer(answer, look(sdr1, page, table))
}
