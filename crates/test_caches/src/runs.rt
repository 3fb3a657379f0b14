// Runs of calls with one cache: each unmap and protect followed by its invalidate, and not.
use super::asked::{State, byte, lent};
use std::io;
use test_report::lent::{INDEX, SDR1, VSID};
use test_report::line;

// Unmaps the page of the cases.
fn unmap(table: &mut [u8; 65536]) {
    mmu::mmu_unmap(SDR1, VSID, INDEX, table, &mut [0xAA; 16]);
}

// Puts PP 3 into its entry.
fn protect(table: &mut [u8; 65536]) {
    mmu::mmu_protect(SDR1, VSID, INDEX, 3, table);
}

// The results of the last access of a run, with the cache and without, from a table of zeros: the page of the cases mapped to RPN 12345 and accessed
// with the cache by this kind, then changed, then an invalidate of this index if any, then the access again.
fn ends<F: Fn(&mut [u8; 65536])>(kind: u32, change: F, invalidated: Option<u32>) -> [u32; 2]
    requires { F.IsAlwaysCallable change }
{
    let asked = byte(kind, 0x00FFA000);
    let mut with = lent(&[], &[]);
    mmu::mmu_map(SDR1, VSID, INDEX, 0x12345, 2, 2, &mut with.table);
    with.access(asked);
    change(&mut with.table);
    if let Some(index) = invalidated {
        mmu::mmu_invalidate(index, &mut with.cache);
    }
    let mut without = State {
        cache: [0; 2048],
        ..with
    };
    [with.access(asked).0, without.access(asked).0]
}

// Followed by its invalidate, of the same page index or of one of the same set.
pub fn disciplined(rt: &impl Print) -> io::Result<()> {
    // The run cannot be told from one without a cache. Source: request 7; P7.
    line(rt, 1172, ends(1, unmap, Some(0xFFA)) == [64, 64])?;
    line(rt, 1173, ends(1, unmap, Some(0x103A)) == [64, 64])?;
    line(rt, 1174, ends(0, unmap, Some(0x3A)) == [65, 65])?;
    line(rt, 1175, ends(2, protect, Some(0xFFA)) == [64, 64])
}

// Not followed by it.
pub fn undisciplined(rt: &impl Print) -> io::Result<()> {
    // No invalidate, that of another set, or a refused one: the cache still answers done. Source: P7, readings that are false.
    line(rt, 1176, ends(1, unmap, None) == [0, 64])?;
    line(rt, 1177, ends(1, unmap, Some(0xFFB)) == [0, 64])?;
    line(rt, 1178, ends(1, unmap, Some(0x10FFA)) == [0, 64])?;
    line(rt, 1179, ends(2, protect, None) == [0, 64])
}
