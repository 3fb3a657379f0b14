// The twelve cases (rules 9), run on the exported calls: a line a case, its number and `ok` or `bad`. An access is to one byte.
// The table of SDR1 0F980000 has 65,536 bytes, and so has that of SDR1 0.
#![tactic(auto)]

ghost use Rattle.std.specs.Prelude.{◌+◌, ◌^◌, ◌≤◌, ◌<◌};

use std::io;
use test_report::answered::{begins_with, of_byte};
use test_report::asked::Asked;
use test_report::lent::{INDEX, SDR1, VSID, registers};
use test_report::line;

// The address that is accessed in the page of the cases.
const ADDRESS: u32 = 0x00FFA01B;

// RPN 0x12345, WIMG 2, PP 2, as a second entry word.
const SECOND: u32 = 0x12345012;

// Whether a group holds eight entries whose VSIDs are 0x400 apart, given the first one's first word.
fn entries_are(group: &[u8], first: u32) -> bool
    requires { first < 2 ^ 31 + 2 ^ 24 }
{
    let mut words = [SECOND; 16];
    for i in 0..8 {
        words[2 * i] = first + 0x20000 * i as u32;
    }
    begins_with(group, &words)
}

// Maps a page to RPN 0x12345 with WIMG 2.
fn map_to(sdr1: u32, pp: u32, vsid: u32, index: u32, table: &mut [u8]) -> u32 {
    mmu::mmu_map(sdr1, vsid, index, 0x12345, 2, pp, table)
}

// Whether a store to the cases' address, by segment 0 in mode 1, answers these three words first.
fn store_answers(table: &mut [u8], three: [u32; 3]) -> bool {
    let page = registers(&[(0, SDR1), (1, VSID)]);
    Asked::byte(1, 2, ADDRESS).begins(page, table, of_byte(three, ADDRESS))
}

// Whether a look at the cases' page answers a second word.
fn look_answers(table: &[u8], word: u32) -> bool {
    let mut answer = [0xAAu8; 16];
    let number = mmu::mmu_look(SDR1, VSID, INDEX, table, &mut answer);
    number == 0 && begins_with(&answer, &[0, word, 0, 0])
}

// Whether a load in mode 1 with a data block, on a cleared table, answers these three words first.
fn load_answers(upper: u32, lower: u32, address: u32, three: [u32; 3]) -> bool {
    let mut table = [0xAAu8; 65536];
    let cleared = mmu::mmu_clear(SDR1, &mut table);
    let page = registers(&[(0, SDR1), (25, upper), (26, lower)]);
    let eight = of_byte(three, address);
    cleared == 0 && Asked::byte(1, 1, address).begins(page, &mut table, eight)
}

// Clears the table and maps in it the pages of `count` VSIDs, 0x400 apart, all with one page index.
fn map_pages(sdr1: u32, pp: u32, vsid: u32, count: u32, index: u32, table: &mut [u8]) -> bool
    requires { (vsid < 2 ^ 24) × (count ≤ 16) }
{
    let mut all = mmu::mmu_clear(sdr1, table) == 0;
    for i in 0..count {
        all = all && map_to(sdr1, pp, vsid + 0x400 * i, index, table) == 0;
    }
    all
}

// Whether, after the unmap of one of the sixteen pages of case 11, another page maps.
fn maps_after(one: u32, vsid: u32, index: u32) -> bool {
    let mut table = [0xAAu8; 65536];
    let mut answer = [0xAAu8; 16];
    let full = map_pages(0, 2, 0, 16, 0, &mut table);
    let number = mmu::mmu_unmap(0, one, 0, &mut table, &mut answer);
    let unmapped = number == 0 && begins_with(&answer, &[0, SECOND, 0, 0]);
    full && unmapped && map_to(0, 2, vsid, index, &mut table) == 0
}

fn case1() -> bool {
    let hash = groups::hash_of(VSID, INDEX);
    let numbers = groups::groups_of(register_words::hash_mask(0x0F980007), hash);
    let primary = groups::group_address(0x0F980007, numbers.primary);
    let secondary = groups::group_address(0x0F980007, numbers.secondary);
    hash == 0x47FE6 && primary == 0x0F9FF980 && secondary == 0x0F980640
}

// The entry in the primary group, 0x3E6, which starts at byte 63872.
fn in_primary() -> bool {
    let mut table = [0xAAu8; 65536];
    let mapped = map_pages(SDR1, 2, VSID, 1, INDEX, &mut table);
    mapped && begins_with(&table[63872..63888], &[0x86380E03, SECOND, 0, 0])
}

// The entry in the secondary group, 0x019, at byte 1600, where eight other pages fill the primary.
fn in_secondary() -> bool {
    let mut table = [0xAAu8; 65536];
    let others = map_pages(SDR1, 2, VSID + 0x400, 8, INDEX, &mut table);
    let mapped = map_to(SDR1, 2, VSID, INDEX, &mut table);
    others && mapped == 0 && begins_with(&table[1600..1616], &[0x86380E43, SECOND, 0, 0])
}

fn case2() -> bool {
    in_primary() && in_secondary()
}

// The store marks the entry, which the look and the table's bytes show.
fn case3() -> bool {
    let mut table = [0xAAu8; 65536];
    let mapped = map_pages(SDR1, 2, VSID, 1, INDEX, &mut table);
    let stored = store_answers(&mut table, [0, 0x1234501B, 2]);
    let held = begins_with(&table[63872..63888], &[0x86380E03, 0x12345192, 0, 0]);
    mapped && stored && held && look_answers(&table, 0x12345192)
}

// A fault leaves the entry as it was.
fn case4() -> bool {
    let mut table = [0xAAu8; 65536];
    let mapped = map_pages(SDR1, 3, VSID, 1, INDEX, &mut table);
    let faulted = store_answers(&mut table, [64, 0x0A000000, 0x300]);
    mapped && faulted && look_answers(&table, 0x12345013)
}

fn case5() -> bool {
    let mut table = [0xAAu8; 65536];
    let cleared = mmu::mmu_clear(SDR1, &mut table);
    cleared == 0 && store_answers(&mut table, [64, 0x42000000, 0x300])
}

fn case6() -> bool {
    let hash = groups::hash_of(VSID, INDEX);
    let numbers = groups::groups_of(register_words::hash_mask(SDR1), hash);
    numbers.primary == 0x3E6 && numbers.secondary == 0x019
}

// Whether clear and check refuse an SDR1 with 2.
fn refused_2(sdr1: u32) -> bool {
    let mut table = [0xAAu8; 65536];
    let page: [u8; 132] = registers(&[(0, sdr1)]);
    mmu::mmu_clear(sdr1, &mut table) == 2 && mmu::mmu_check(&page) == 2
}

fn case7() -> bool {
    refused_2(0x0F980005) && refused_2(0x0F910007)
}

fn case8() -> bool {
    load_answers(0x80001FFE, 0x10000002, 0x8FFFFFFF, [0, 0x1FFFFFFF, 0])
        && load_answers(0x80001FFE, 0x10000002, 0x90000000, [64, 0x40000000, 0x300])
}

fn case9() -> bool {
    load_answers(0x00000002, 0x10000002, 0x0001FFFF, [0, 0x1001FFFF, 0])
        && load_answers(0x00000002, 0x10000002, 0x00020000, [64, 0x40000000, 0x300])
}

// An access with such a block is refused, and so is the check of its register page.
fn case10() -> bool {
    let page: [u8; 132] = registers(&[(0, SDR1), (25, 0x0000000A), (26, 0x10000002)]);
    load_answers(0x0000000A, 0x10000002, 0, [3, 0, 0]) && mmu::mmu_check(&page) == 3
}

// Group 0 and group 0x3FF, at byte 65472, then hold eight entries each.
fn case11() -> bool {
    let mut table = [0xAAu8; 65536];
    let full = map_pages(0, 2, 0, 16, 0, &mut table);
    let primary = entries_are(&table[0..64], 0x80000000);
    let secondary = entries_are(&table[65472..65536], 0x80100040);
    let first = map_to(0, 2, 0x4000, 0, &mut table);
    let second = map_to(0, 2, 0, 0x3FF, &mut table);
    full && primary && secondary && first == 9 && second == 9
}

fn case12() -> bool {
    let mut all = true;
    for i in 0..16 {
        let one = 0x400 * i;
        all = all && maps_after(one, 0x4000, 0) && maps_after(one, 0, 0x3FF);
    }
    all
}

fn main(rt: HostRuntime) -> io::Result<()> {
    line(&rt, 1, case1())?;
    line(&rt, 2, case2())?;
    line(&rt, 3, case3())?;
    line(&rt, 4, case4())?;
    line(&rt, 5, case5())?;
    line(&rt, 6, case6())?;
    line(&rt, 7, case7())?;
    line(&rt, 8, case8())?;
    line(&rt, 9, case9())?;
    line(&rt, 10, case10())?;
    line(&rt, 11, case11())?;
    line(&rt, 12, case12())
}
