// Hash, groups and entries in groups: a page's two groups, the free entry, the entry writer, and the clear of a table.
#![tactic(auto)]

ghost use Rattle.std.specs.Prelude.{◌≡◌, true, cond, ℕ, ◌+◌, ◌-◌, ◌*◌, ◌<◌, ◌≤◌, ◌^◌, List, length, replicate};
ghost use Rattle.numbers.specs.Numbers.{group_size, group_entries};
ghost use Rattle.words.specs.Words.{swapped};
ghost use Rattle.entry.specs.Entry.{first_word};
ghost use Rattle.register_words.specs.Sdr1.{sdr1_shape, hash_bits};
ghost use Rattle.groups.specs.Page.{InRange};
ghost use Rattle.groups.specs.Hash.{hash_of, groups_of, group_address, located};
ghost use Rattle.groups.specs.Group.{first_of, second_of, put_entry, put_at, entry_free, first_free_place, free_after};

// A virtual page: a VSID and a page index.
// Has no invariant, so that `InRange` stands in contracts: `page_calls::page_in_range` asks a page of any numbers, and `cache::find` takes any page index.
#[derive(Clone, Copy, PartialEq, Eq, Debug)]
pub struct Page {
    pub vsid: u32,
    pub index: u32,
}

// The numbers of the two groups of a hash.
#[derive(Clone, Copy)]
pub struct Groups {
    pub primary: u32,
    pub secondary: u32,
}

// The hash of a page: the low 19 bits of the VSID, exclusive-or the page index.
// (Hash, complement and address stay by shifts and masks: a form that the rules bind.)
pub fn hash_of(vsid: u32, index: u32) -> u32
    ensures { result ≡ hash_of vsid index }
{
    (vsid & 0x7FFFF) ^ index
}

// The two groups of a hash, under the n ones that it is masked with: the secondary's number is the complement of the primary's in n bits.
pub fn groups_of(ones: u32, hash: u32) -> Groups
    ensures { (n : ℕ) → ones ≡ 2 ^ n - 1 → result ≡ groups_of n hash }
{
    let primary = hash & ones;
    Groups {
        primary,
        secondary: primary ^ ones,
    }
}

// The address of a group of the table of SDR1.
pub fn group_address(sdr1: u32, group: u32) -> u32
    requires { (sdr1_shape sdr1 ≡ true) × (group < 2 ^ hash_bits sdr1) }
    ensures { result ≡ group_address sdr1 group }
{
    (sdr1 & 0xFFFF0000) | (group << 6)
}

// Where a page's entries are: the numbers of its two groups, and the first word that matches in the primary, its bytes in reverse order.
#[derive(Clone, Copy)]
pub struct Located {
    pub primary: usize,
    pub secondary: usize,
    pub wanted: u32,
}

impl Located {
    // The number of the primary (false) or the secondary group (true).
    pub fn group(self, secondary: bool) -> usize
        ensures { result ≡ cond secondary self.secondary self.primary }
    {
        if secondary {
            self.secondary
        } else {
            self.primary
        }
    }

    // The first word that matches in the primary (false) or the secondary group (true), its bytes in reverse order.
    pub fn wanted_in(self, secondary: bool) -> u32
        ensures { (vsid api : ℕ) → vsid < 2 ^ 24 → api < 2 ^ 6 → self.wanted ≡ swapped (first_word 1 vsid 0 api)
            → result ≡ swapped (first_word 1 vsid (cond secondary 1 0) api) }
    {
        if secondary {
            entry::secondary_word(self.wanted)
        } else {
            self.wanted
        }
    }
}

// Where the entries of a page are, in a table of so many bytes: the number of its last group is the ones that the hash is masked with.
pub fn locate(lent: usize, page: Page) -> Located
    requires { (group_size ≤ lent) × (lent < 2 ^ 32) × InRange page }
    ensures { (k : ℕ) → lent ≡ 65536 * 2 ^ k → result ≡ located k page }
{
    let last = (lent / numbers::GROUP_SIZE - 1) as u32;
    let own = groups_of(last, hash_of(page.vsid, page.index));
    Located {
        primary: own.primary as usize,
        secondary: own.secondary as usize,
        wanted: entry::match_word(page.vsid, 0, entry::api_of(page.index)),
    }
}

// Whether an entry of a group has V = 0: V is the highest bit of its first byte.
fn entry_free(group: &[u8; numbers::GROUP_SIZE], entry: usize) -> bool
    requires { entry < group_entries }
    ensures { result ≡ entry_free group.now entry }
{
    group[numbers::ENTRY_SIZE * entry] < 0x80
}

// Which entries of a group have V = 0, behind those told before: a bit for each, the last entry's the lowest.
// (A number of bits stays: `free_after`, `told` and their rows in specs/ speak of it. The loop goes by the entry's number: an entry is its number's
// eight bytes in every definition, and chunks of the group would be a second way to say that. It is joined with every caller: out of line a map with
// its unmap takes 365 instructions in place of 297.)
#[inline(always)]
pub fn free_after(before: u32, group: &[u8; numbers::GROUP_SIZE]) -> u32
    ensures { before < 2 ^ group_entries → result ≡ free_after before group.now }
{
    let mut free = before;
    for entry in 0..numbers::GROUP_ENTRIES {
        free = (free << 1) | u32::from(entry_free(group, entry));
    }
    free
}

// The place of an entry of a page's two groups: whether it is in the secondary group, and its number there.
#[derive(Clone, Copy, PartialEq, Eq, Debug)]
pub struct Place {
    pub secondary: bool,
    pub entry: usize,
}

// The first free entry in search order, by which entries of a page's two groups are free: two groups by eight entries, left at the first with V = 0.
// (Two nested loops left by a label stay: a form that the rules bind.)
pub fn free_place(free: u32) -> Option<Place>
    ensures { (primary secondary : List ℕ) → free ≡ free_after (free_after 0 primary) secondary → result ≡ first_free_place primary secondary }
{
    let mut found = None;
    'search: for h in 0..2usize {
        for entry in 0..numbers::GROUP_ENTRIES {
            let behind = 15 - (numbers::GROUP_ENTRIES * h + entry);
            if (free >> behind) & 1 == 1 {
                found = Some(Place {
                    secondary: h == 1,
                    entry,
                });
                break 'search;
            }
        }
    }
    found
}

// The second word of an entry of a group of the table.
// Table, group and entry stay three here and in the three functions below: a table is lent anew to each call, so that a value of group and entry could
// not promise that they lie in it, and the bounds would be asked all the same.
pub fn second_of(table: &[u8], group: usize, entry: usize) -> u32
    requires { (entry < group_entries) × (group_size * group + group_size ≤ length table.now) }
    ensures { result ≡ second_of table.now group entry }
{
    words::read_word(
        table,
        group * numbers::GROUP_SIZE + numbers::ENTRY_SIZE * entry + 4,
    )
}

// Writes two words as an entry of the one group that it is handed.
// (The group that is written stays a slice with its length in a clause, here and in `match_edits::edit_group`, where one that is read is an array: tried as
// `&mut [u8; 64]` by `split_at_mut` and `first_chunk_mut`, it proves and misses a bar of speed: a map with its unmap takes 345 instructions in place of
// 289. Of `&mut table[from..to]` by `as_mut_array` the proof is not told what was written.)
#[tactic(auto, unfolding(crate::specs::Group::put_entry))]
pub fn write_entry(group: &mut [u8], entry: usize, first: u32, second: u32)
    requires { (entry < group_entries) × (length group.old ≡ group_size) }
    ensures { group.new ≡ put_entry group.old entry first second }
{
    words::write_word(group, numbers::ENTRY_SIZE * entry, first);
    words::write_word(group, numbers::ENTRY_SIZE * entry + 4, second);
}

// Writes two words as an entry of a group of the table: the entry writer is lent the group's 64 bytes.
// (The part by its two ends stays: the group's 64 bytes lent as a `&mut` part are a form that the rules bind.)
pub fn put_entry(table: &mut [u8], group: usize, entry: usize, first: u32, second: u32)
    requires { (entry < group_entries) × (group_size * group + group_size ≤ length table.old) }
    ensures { table.new ≡ put_at table.old group entry first second }
{
    let from = group * numbers::GROUP_SIZE;
    let to = from + numbers::GROUP_SIZE;
    write_entry(&mut table[from..to], entry, first, second);
}

// Writes a second word into an entry of a group of the table. The first word is written back as it stands.
pub fn put_second(table: &mut [u8], group: usize, entry: usize, second: u32)
    requires { (entry < group_entries) × (group_size * group + group_size ≤ length table.old) }
    ensures { table.new ≡ put_at table.old group entry (first_of table.old group entry) second }
{
    let first = words::read_word(
        table,
        group * numbers::GROUP_SIZE + numbers::ENTRY_SIZE * entry,
    );
    put_entry(table, group, entry, first, second);
}

// Zeroes the table.
pub fn clear(table: &mut [u8])
    ensures { table.new ≡ replicate (length table.old) 0 }
{
    table.fill(0);
}
