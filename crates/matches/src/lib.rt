// The one search of a group of a page: its first match, whether a further one disagrees, and which entries have V = 0.
#![tactic(auto)]

ghost use Rattle.std.specs.Prelude.{◌≡◌, Bool, false, cond, List, ◌++◌, ℕ, ◌+◌, ◌*◌, ◌<◌, ◌≤◌, ◌^◌, length};
ghost use Rattle.numbers.specs.Numbers.{group_size, group_entries};
ghost use Rattle.theory_tables.specs.Matches.{Match};
ghost use Rattle.groups.specs.Group.{group_of, free_after};
ghost use Rattle.matches.specs.Search.{WantedWord, h_of, group_matches, agree, any_match, disagrees, first_match, with_others, told, in_primary, in_both};

use groups::Place;

// Whether the second words of two matches agree: RPN, WIMG and PP are equal. R, C and the ignored bits may differ.
#[tactic(auto, unfolding(crate::specs::Search::agree))]
pub fn words_agree(second: u32, other: u32) -> bool
    ensures { result ≡ agree second other }
{
    (second >> 12 == other >> 12)
        & (entry::wimg_of(second) == entry::wimg_of(other))
        & (entry::pp_of(second) == entry::pp_of(other))
}

// Whether a page has further matches than its first one, and whether their second words agree with its.
#[derive(Clone, Copy, PartialEq, Eq, Debug)]
pub enum Others {
    Absent,
    Agreeing,
    Differing,
}

// The first match of a page in search order, primary entries 0 to 7, then secondary: its place, its second word, and what is told of the others.
#[derive(Clone, Copy, PartialEq, Eq, Debug)]
pub struct FirstMatch {
    pub place: Place,
    pub second: u32,
    pub others: Others,
}

// What a search tells of the entries that it went over: the first match, and in `free` a bit for each entry, the last one's the lowest: one where
// V = 0.
#[derive(Clone, Copy, PartialEq, Eq, Debug)]
pub struct Told {
    pub first: Option<FirstMatch>,
    pub free: u32,
}

// Whether a match of a group disagrees with a second word. It is run only where there are several matches, and left out of the search.
#[cold]
#[inline(never)]
fn disagree(group: &[u8; numbers::GROUP_SIZE], wanted: u32, second: u32) -> bool
    ensures { (secondary : Bool) (vsid api : ℕ) → WantedWord secondary vsid api wanted
        → result ≡ any_match (disagrees second) (group_matches secondary vsid api group.now) }
{
    let mut found = false;
    for entry in 0..numbers::GROUP_ENTRIES {
        let other = words::read_word(group, numbers::ENTRY_SIZE * entry + 4);
        found |= words::is_word(group, numbers::ENTRY_SIZE * entry, wanted)
            & !words_agree(second, other);
    }
    found
}

// A first match where there are others, those of this group among them.
fn with_others(group: &[u8; numbers::GROUP_SIZE], wanted: u32, first: FirstMatch) -> FirstMatch
    ensures { (secondary : Bool) (vsid api : ℕ) (m : Match) (ms : List Match) → WantedWord secondary vsid api wanted → first ≡ first_match m ms
        → result ≡ with_others m (ms ++ group_matches secondary vsid api group.now) }
{
    let differs = disagree(group, wanted, first.second) | (first.others == Others::Differing);
    FirstMatch {
        others: if differs {
            Others::Differing
        } else {
            Others::Agreeing
        },
        ..first
    }
}

// The one search of a group: its matches and its free entries, behind what was told before. `from` is the number of its entry 0 in search order, 0 in a
// primary group and 8 in a secondary one.
// `WantedWord` stays in the clauses of the search: the word alone is handed on, and of which page it is the word no value tells.
// (The loop goes by the entries' numbers, since an entry's number is what is told. It is joined with every caller, as are the functions below, or
// a look would take 469 instructions in place of 111.)
#[inline(always)]
pub fn search(group: &[u8; numbers::GROUP_SIZE], from: usize, wanted: u32, before: Told) -> Told
    ensures { (secondary : Bool) (vsid api : ℕ) (ms : List Match) (free : ℕ) → WantedWord secondary vsid api wanted → from ≡ group_entries * h_of secondary
        → free < 2 ^ group_entries → before ≡ told ms free
        → result ≡ told (ms ++ group_matches secondary vsid api group.now) (free_after free group.now) }
{
    let secondary = from == numbers::GROUP_ENTRIES;
    let free = groups::free_after(before.free, group);
    let mut first = before.first;
    for entry in 0..numbers::GROUP_ENTRIES {
        if words::is_word(group, numbers::ENTRY_SIZE * entry, wanted) {
            if let Some(one) = first {
                return Told {
                    first: Some(with_others(group, wanted, one)),
                    free,
                };
            }
            first = Some(FirstMatch {
                place: Place { secondary, entry },
                second: words::read_word(group, numbers::ENTRY_SIZE * entry + 4),
                others: Others::Absent,
            });
        }
    }
    Told { first, free }
}

// The search of one of a page's two groups in the table.
#[inline(always)]
fn in_group(table: &[u8], page: groups::Located, secondary: bool, before: Told) -> Told
    requires { group_size * cond secondary page.secondary page.primary + group_size ≤ length table.now }
    ensures { (vsid api : ℕ) (ms : List Match) (free : ℕ) → WantedWord false vsid api page.wanted → free < 2 ^ group_entries → before ≡ told ms free
        → let group = group_of table.now (cond secondary page.secondary page.primary) in
        result ≡ told (ms ++ group_matches secondary vsid api group) (free_after free group) }
{
    let at = page.group(secondary) * numbers::GROUP_SIZE;
    let to = at + numbers::GROUP_SIZE;
    let group = table[at..to].as_array().unwrap();
    let from = numbers::GROUP_ENTRIES * usize::from(secondary);
    search(group, from, page.wanted_in(secondary), before)
}

// The search of a page's primary group.
#[inline(always)]
pub fn in_primary(table: &[u8], page: groups::Located) -> Told
    requires { group_size * page.primary + group_size ≤ length table.now }
    ensures { (vsid api : ℕ) → WantedWord false vsid api page.wanted → result ≡ in_primary vsid api (group_of table.now page.primary) }
{
    let nothing = Told {
        first: None,
        free: 0,
    };
    in_group(table, page, false, nothing)
}

// The search of a page's two groups: the primary, then the secondary, which goes on from what the primary told.
#[inline(always)]
pub fn search_page(table: &[u8], page: groups::Located) -> Told
    requires { (group_size * page.primary + group_size ≤ length table.now) × (group_size * page.secondary + group_size ≤ length table.now) }
    ensures { (vsid api : ℕ) → WantedWord false vsid api page.wanted
        → result ≡ in_both vsid api (group_of table.now page.primary) (group_of table.now page.secondary) }
{
    let primary = in_primary(table, page);
    in_group(table, page, true, primary)
}
