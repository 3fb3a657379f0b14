// The thirteen exported calls. Each contract gives the result number and every lent byte, for all inputs, by a definition of `theory_calls`,
// `theory_cache` or `access_rights`. What they take and hand back, numbers and lent slices, is the C interface; inside a refusal is an `Err`.
#![tactic(auto)]

mod access;
mod cached;
mod pages;
mod rights;

ghost use Rattle.std.specs.Prelude.{◌≡◌};
ghost use Rattle.numbers.specs.Refused.{result_number};
ghost use Rattle.theory_calls.specs.WithoutTable.{check_call, set_register_call, pack_call, unpack_call};

pub use access::mmu_access;
pub use cached::{mmu_access_cached, mmu_invalidate};
use numbers::Refusal;
pub use pages::{mmu_clear, mmu_look, mmu_map, mmu_protect, mmu_unmap};
use register_pages::RegisterPage;
pub use rights::mmu_rights;

// Checks a register page.
#[tactic(auto, unfolding(theory_calls::specs::WithoutTable::check_call))]
#[unsafe(no_mangle)]
pub extern "C" fn mmu_check(registers: &[u8]) -> u32
    ensures { result ≡ check_call registers.now }
{
    match RegisterPage::new(registers) {
        Ok(page) => numbers::result_of(page.check()),
        Err(refusal) => u32::from(refusal),
    }
}

// Replaces one word of a register page.
#[tactic(auto, unfolding(theory_calls::specs::WithoutTable::set_register_call, register_pages::specs::Replace::page_replaced))]
#[unsafe(no_mangle)]
pub extern "C" fn mmu_set_register(registers: &mut [u8], number: u32, word: u32) -> u32
    ensures { (result, registers.new) ≡ set_register_call registers.old number word }
{
    if !registers::is_page(registers.len()) {
        return u32::from(Refusal::LentLength);
    }
    numbers::result_of(register_pages::set_word(registers, number, word))
}

// Packs fields into the bytes of an entry. Zeros are written first, for they stand there where a field is past its width.
fn pack(fields: entry::Fields, entry: &mut [u8]) -> Result<(), Refusal>
    ensures { (result_number result, entry.new) ≡ pack_call fields entry.old }
{
    if entry.len() != numbers::ENTRY_SIZE {
        return Err(Refusal::LentLength);
    }
    entry.fill(0);
    let packed = entry::pack(fields)?;
    words::write_words(entry, &[packed.first, packed.second]);
    Ok(())
}

// Packs nine fields into the two words of an entry.
#[unsafe(no_mangle)]
pub extern "C" fn mmu_pack(
    v: u32,
    vsid: u32,
    h: u32,
    api: u32,
    rpn: u32,
    r: u32,
    c: u32,
    wimg: u32,
    pp: u32,
    entry: &mut [u8],
) -> u32
    ensures { (result, entry.new)
        ≡ pack_call (record { v = v; vsid = vsid; h = h; api = api; rpn = rpn; r = r; c = c; wimg = wimg; pp = pp }) entry.old }
{
    let fields = entry::Fields {
        v,
        vsid,
        h,
        api,
        rpn,
        r,
        c,
        wimg,
        pp,
    };
    numbers::result_of(pack(fields, entry))
}

// Unpacks the two words of an entry into nine fields.
#[unsafe(no_mangle)]
pub extern "C" fn mmu_unpack(first: u32, second: u32, fields: &mut [u8]) -> u32
    ensures { (result, fields.new) ≡ unpack_call first second fields.old }
{
    if fields.len() != numbers::FIELDS_SIZE {
        return u32::from(Refusal::LentLength);
    }
    let f = entry::unpack(entry::Words { first, second });
    words::write_words(
        fields,
        &[f.v, f.vsid, f.h, f.api, f.rpn, f.r, f.c, f.wimg, f.pp],
    );
    numbers::DONE
}
