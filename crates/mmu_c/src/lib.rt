// The thirteen calls as C programs link them: each calls the function of `mmu` that has its name, and states its contract again in the same words.
// They stand here a second time since no crate can use an archive: names, types and contracts are the C interface.
#![tactic(auto)]

ghost use Rattle.std.specs.Prelude.{◌≡◌, []};
ghost use Rattle.theory_calls.specs.Request.{access, clear, map_page, unmap, protect, look};
ghost use Rattle.theory_calls.specs.OnBytes.{ended, on_bytes};
ghost use Rattle.theory_calls.specs.WithoutTable.{check_call, set_register_call, pack_call, unpack_call};
ghost use Rattle.theory_cache.specs.Cached.{on_cached, invalidate_call};
ghost use Rattle.access_rights.specs.Rights.{rights_call};

// Checks a register page.
#[unsafe(no_mangle)]
pub extern "C" fn mmu_check(registers: &[u8]) -> u32
    ensures { result ≡ check_call registers.now }
{
    mmu::mmu_check(registers)
}

// Replaces one word of a register page.
#[unsafe(no_mangle)]
pub extern "C" fn mmu_set_register(registers: &mut [u8], number: u32, word: u32) -> u32
    ensures { (result, registers.new) ≡ set_register_call registers.old number word }
{
    mmu::mmu_set_register(registers, number, word)
}

// Packs nine fields into the two words of an entry.
#[unsafe(no_mangle)]
pub extern "C" fn mmu_pack(
    v: u32,
    vsid: u32,
    h: u32,
    api: u32,
    rpn: u32,
    r: u32,
    c: u32,
    wimg: u32,
    pp: u32,
    entry: &mut [u8],
) -> u32
    ensures { (result, entry.new)
        ≡ pack_call (record { v = v; vsid = vsid; h = h; api = api; rpn = rpn; r = r; c = c; wimg = wimg; pp = pp }) entry.old }
{
    mmu::mmu_pack(v, vsid, h, api, rpn, r, c, wimg, pp, entry)
}

// Unpacks the two words of an entry into nine fields.
#[unsafe(no_mangle)]
pub extern "C" fn mmu_unpack(first: u32, second: u32, fields: &mut [u8]) -> u32
    ensures { (result, fields.new) ≡ unpack_call first second fields.old }
{
    mmu::mmu_unpack(first, second, fields)
}

// Zeroes the table.
#[unsafe(no_mangle)]
pub extern "C" fn mmu_clear(sdr1: u32, table: &mut [u8]) -> u32
    ensures { ended result table.new [] ≡ on_bytes (clear (record { sdr1 = sdr1 })) table.old }
{
    mmu::mmu_clear(sdr1, table)
}

// Maps a page.
#[unsafe(no_mangle)]
pub extern "C" fn mmu_map(
    sdr1: u32,
    vsid: u32,
    index: u32,
    rpn: u32,
    wimg: u32,
    pp: u32,
    table: &mut [u8],
) -> u32
    ensures { ended result table.new []
        ≡ on_bytes (map_page (record { sdr1 = sdr1; page = record { vsid = vsid; index = index }; rpn = rpn; wimg = wimg; pp = pp })) table.old }
{
    mmu::mmu_map(sdr1, vsid, index, rpn, wimg, pp, table)
}

// Unmaps a page. The answer has the first match's second word, with the marks of all.
#[unsafe(no_mangle)]
pub extern "C" fn mmu_unmap(
    sdr1: u32,
    vsid: u32,
    index: u32,
    table: &mut [u8],
    answer: &mut [u8],
) -> u32
    ensures { ended result table.new answer.new
        ≡ on_bytes (unmap (record { sdr1 = sdr1; page = record { vsid = vsid; index = index }; answer = answer.old })) table.old }
{
    mmu::mmu_unmap(sdr1, vsid, index, table, answer)
}

// Puts another PP into a page's entries.
#[unsafe(no_mangle)]
pub extern "C" fn mmu_protect(sdr1: u32, vsid: u32, index: u32, pp: u32, table: &mut [u8]) -> u32
    ensures { ended result table.new []
        ≡ on_bytes (protect (record { sdr1 = sdr1; page = record { vsid = vsid; index = index }; pp = pp })) table.old }
{
    mmu::mmu_protect(sdr1, vsid, index, pp, table)
}

// Looks a page up. The answer has the first match's second word.
#[unsafe(no_mangle)]
pub extern "C" fn mmu_look(sdr1: u32, vsid: u32, index: u32, table: &[u8], answer: &mut [u8]) -> u32
    ensures { ended result table.now answer.new
        ≡ on_bytes (look (record { sdr1 = sdr1; page = record { vsid = vsid; index = index }; answer = answer.old })) table.now }
{
    mmu::mmu_look(sdr1, vsid, index, table, answer)
}

// Translates one access and marks the entries that did it.
#[unsafe(no_mangle)]
pub extern "C" fn mmu_access(
    registers: &[u8],
    mode: u32,
    kind: u32,
    address: u32,
    length: u32,
    table: &mut [u8],
    answer: &mut [u8],
) -> u32
    ensures { ended result table.new answer.new ≡ on_bytes (access (record {
      registers = registers.entry.now;
      mode = mode;
      kind = kind;
      address = address;
      length = length;
      answer = answer.old;
    })) table.old }
{
    mmu::mmu_access(registers, mode, kind, address, length, table, answer)
}

// Translates one access by the cache, and by the table where the cache has no hit; what went to the table is marked there and loaded.
#[unsafe(no_mangle)]
pub extern "C" fn mmu_access_cached(
    registers: &[u8],
    mode: u32,
    kind: u32,
    address: u32,
    length: u32,
    table: &mut [u8],
    cache: &mut [u8],
    answer: &mut [u8],
) -> u32
    ensures { ended result (table.new, cache.new) answer.new ≡ on_cached (record {
      registers = registers.entry.now;
      mode = mode;
      kind = kind;
      address = address;
      length = length;
      answer = answer.old;
    }) (table.old, cache.old) }
{
    mmu::mmu_access_cached(registers, mode, kind, address, length, table, cache, answer)
}

// Zeroes the set of a page index in the cache.
#[unsafe(no_mangle)]
pub extern "C" fn mmu_invalidate(index: u32, cache: &mut [u8]) -> u32
    ensures { (result, cache.new) ≡ invalidate_call index cache.old }
{
    mmu::mmu_invalidate(index, cache)
}

// Tells what a fetch, a load and a store at an address would come to, and marks nothing.
#[unsafe(no_mangle)]
pub extern "C" fn mmu_rights(
    registers: &[u8],
    mode: u32,
    address: u32,
    table: &[u8],
    answer: &mut [u8],
) -> u32
    ensures { (result, answer.new)
        ≡ rights_call (record { registers = registers.entry.now; mode = mode; address = address }) answer.old table.now }
{
    mmu::mmu_rights(registers, mode, address, table, answer)
}
