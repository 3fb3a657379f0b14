// The exported access with a cache, and the exported invalidate of a page index.
ghost use Rattle.std.specs.Prelude.{◌≡◌};
ghost use Rattle.theory_calls.specs.OnBytes.{ended};
ghost use Rattle.theory_cache.specs.Cached.{on_cached, invalidate_call};

use numbers::Refusal;
use register_pages::RegisterPage;

// Translates one access by the cache, and by the table where the cache has no hit; what went to the table is marked there and loaded.
#[unsafe(no_mangle)]
pub extern "C" fn mmu_access_cached(
    registers: &[u8],
    mode: u32,
    kind: u32,
    address: u32,
    length: u32,
    table: &mut [u8],
    cache: &mut [u8],
    answer: &mut [u8],
) -> u32
    ensures { ended result (table.new, cache.new) answer.new ≡ on_cached (record {
      registers = registers.entry.now;
      mode = mode;
      kind = kind;
      address = address;
      length = length;
      answer = answer.old;
    }) (table.old, cache.old) }
{
    if !((answer.len() == numbers::ACCESS_ANSWER_SIZE) & (cache.len() == cache::SIZE)) {
        return u32::from(Refusal::LentLength);
    }
    let Ok(page) = RegisterPage::new(registers) else {
        return u32::from(Refusal::LentLength);
    };
    let asked = table_access::Access {
        mode,
        kind,
        address,
        length,
    };
    table_access::translate(page, asked, table, cache, answer)
}

// Zeroes the set of a page index in the cache.
#[tactic(auto, unfolding(theory_cache::specs::Cached::invalidate_call, theory_cache::specs::Cached::invalidate_refusal))]
#[unsafe(no_mangle)]
pub extern "C" fn mmu_invalidate(index: u32, cache: &mut [u8]) -> u32
    ensures { (result, cache.new) ≡ invalidate_call index cache.old }
{
    if cache.len() != cache::SIZE {
        return u32::from(Refusal::LentLength);
    }
    if index >= 0x10000 {
        return u32::from(Refusal::Argument);
    }
    cache::zero_set(cache, index);
    numbers::DONE
}
