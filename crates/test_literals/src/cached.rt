// An access with a cache, an invalidate, and rights. Set 58, of page index 0FFA, begins at the cache's byte 1856.
use super::lent::{registers, table_with};
use std::io;
use test_report::lent::INDEX;
use test_report::line;

// A cache whose set 58 has the page in place 0, its second word ending with these bytes.
fn cache_with(seventh: u8, eighth: u8) -> [u8; 2048] {
    let mut cache = [0u8; 2048];
    cache[1856..1872].copy_from_slice(&[
        0x86, 0x38, 0x0E, 0x03, 0x12, 0x34, seventh, eighth, 0, 0, 0x0F, 0xFA, 0, 0, 0, 1,
    ]);
    cache
}

// Whether a load of the byte at 00FFA01B answers this entry number and leaves this table and this cache.
fn loads(
    table: [u8; 65536],
    cache: [u8; 2048],
    entry: u8,
    table_after: [u8; 65536],
    cache_after: [u8; 2048],
) -> bool {
    let page = registers();
    let mut lent = table;
    let mut held = cache;
    let mut answer = [0xAAu8; 48];
    let number = mmu::mmu_access_cached(
        &page,
        1,
        1,
        0x00FFA01B,
        1,
        &mut lent,
        &mut held,
        &mut answer,
    );
    let mut expected =
        *b"\x00\x00\x00\x00\x12\x34\x50\x1B\x00\x00\x00\x02\x00\xFF\xA0\x1B\x00\x00\x00\x00\x00\x00\x00\x00\x00\x00\x00\x01\x00\x00\x00\x00\x00\x00\x00\x06\x00\x00\x00\x02\x00\x00\x03\xE6\x00\x00\x00\x00";
    expected[47] = entry;
    number == 0 && answer == expected && lent == table_after && held == cache_after
}

// By the table, whose entry goes into the cache.
fn first_load() -> bool {
    loads(
        table_with(0x50, 0x12),
        [0; 2048],
        0,
        table_with(0x51, 0x12),
        cache_with(0x51, 0x12),
    )
}

// By the cache alone: the table has no entry.
fn hit() -> bool {
    loads(
        [0; 65536],
        cache_with(0x51, 0x12),
        8,
        [0; 65536],
        cache_with(0x51, 0x12),
    )
}

// The page is in the cache no more.
fn invalidate() -> bool {
    let mut cache = cache_with(0x51, 0x12);
    let number = mmu::mmu_invalidate(INDEX, &mut cache);
    number == 0 && cache == [0; 2048]
}

// The fetch in real mode, load and store by the page: R is new for the load, R and C for the store.
fn told() -> bool {
    let page = registers();
    let table = table_with(0x50, 0x12);
    let mut answer = [0xAAu8; 156];
    let number = mmu::mmu_rights(&page, 1, 0x00FFA01B, &table, &mut answer);
    let expected =
        b"\x00\x00\x00\x00\x00\xFF\xA0\x1B\x00\x00\x00\x03\x00\xFF\xA0\x1B\x00\x00\x00\x00\x00\x00\x00\x00\x00\x00\x00\x01\x00\x00\x00\x00\x00\x00\x00\x00\x00\x00\x00\x00\x00\x00\x00\x00\x00\x00\x00\x00\x00\x00\x00\x00\x12\x34\x50\x1B\x00\x00\x00\x02\x00\xFF\xA0\x1B\x00\x00\x00\x00\x00\x00\x00\x00\x00\x00\x00\x01\x00\x00\x00\x00\x00\x00\x00\x06\x00\x00\x00\x02\x00\x00\x03\xE6\x00\x00\x00\x00\x00\x00\x00\x00\x12\x34\x50\x1B\x00\x00\x00\x02\x00\xFF\xA0\x1B\x00\x00\x00\x00\x00\x00\x00\x00\x00\x00\x00\x01\x00\x00\x00\x00\x00\x00\x00\x06\x00\x00\x00\x02\x00\x00\x03\xE6\x00\x00\x00\x00\x00\x00\x00\x00\x00\x00\x01\x00\x00\x00\x01\x80";
    number == 0 && answer == *expected
}

// A load into the cache, a hit, an invalidate. Source: request 7.
pub fn caches(rt: &impl Print) -> io::Result<()> {
    line(rt, 1247, first_load())?;
    line(rt, 1248, hit())?;
    line(rt, 1249, invalidate())
}

// What a fetch, a load and a store would come to. Source: rules 5.
pub fn rights(rt: &impl Print) -> io::Result<()> {
    line(rt, 1250, told())
}
