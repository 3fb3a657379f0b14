// Edits of every match of a page: eight zero bytes, or another PP.
#![tactic(auto)]

ghost use Rattle.std.specs.Prelude.{◌≡◌, Bool, false, cond, ℕ, ◌+◌, ◌*◌, ◌<◌, ◌≤◌, length, Some};
ghost use Rattle.numbers.specs.Numbers.{group_size, group_entries};
ghost use Rattle.groups.specs.Group.{group_of, on_group, second_of};
ghost use Rattle.matches.specs.Search.{WantedWord, group_matches, pair_matches, found_of, marks_of};
ghost use Rattle.match_edits.specs.Edit.{edited_words, edit_at, edit_matches, edit_pair};

use matches::{FirstMatch, Others};

mod pp;

pub use pp::Pp;

// What is done to each match: eight zero bytes, or another PP.
// Stays an enum and no closure: `edited_words`, `edit_matches` and `edited` of specs/, and theorems of the theory crates over them, speak of an edit.
#[derive(Clone, Copy, PartialEq, Eq, Debug)]
pub enum Edit {
    Clear,
    Protect(Pp),
}

// The words that an edit makes of an entry's two.
pub fn edited_words(edit: Edit, first: u32, second: u32) -> entry::Words
    ensures { (result.first, result.second) ≡ edited_words edit first second }
{
    match edit {
        Edit::Clear => entry::Words {
            first: 0,
            second: 0,
        },
        Edit::Protect(pp) => entry::Words {
            first,
            second: entry::with_pp(second, pp.value),
        },
    }
}

// Edits an entry of a group of the table, and answers its second word as it was.
pub fn edit_entry(table: &mut [u8], group: usize, entry: usize, edit: Edit) -> u32
    requires { (entry < group_entries) × (group_size * group + group_size ≤ length table.old) }
    ensures { (table.new ≡ edit_at edit table.old group entry) × (result ≡ second_of table.old group entry) }
{
    let second = groups::second_of(table, group, entry);
    match edit {
        Edit::Clear => groups::put_entry(table, group, entry, 0, 0),
        Edit::Protect(pp) => groups::put_second(
            table,
            group,
            entry,
            entry::with_pp(second, pp.value),
        ),
    }
    second
}

// Edits each match of one group, and answers a word with their marks as they were.
// (The loop goes by the entries' numbers: the entry writer is lent the group's 64 bytes and a number, a form that the rules bind.)
fn edit_group(group: &mut [u8], wanted: u32, edit: Edit, word: u32) -> u32
    requires { length group.old ≡ group_size }
    ensures { (secondary : Bool) (vsid api : ℕ) → WantedWord secondary vsid api wanted
        → (group.new ≡ edit_matches edit secondary vsid api group.old) × (result ≡ marks_of (group_matches secondary vsid api group.old) word) }
{
    let mut merged = word;
    for entry in 0..numbers::GROUP_ENTRIES {
        if words::is_word(group, numbers::ENTRY_SIZE * entry, wanted) {
            let first = words::read_word(group, numbers::ENTRY_SIZE * entry);
            let second = words::read_word(group, numbers::ENTRY_SIZE * entry + 4);
            let made = edited_words(edit, first, second);
            groups::write_entry(group, entry, made.first, made.second);
            let r = entry::is_referenced(second);
            let c = entry::is_changed(second);
            merged = entry::with_marks(merged, r, c);
        }
    }
    merged
}

// Edits each match of a page's primary (false) or secondary (true) group in the table, and answers a word with their marks as they were.
fn edit_in(table: &mut [u8], page: groups::Located, secondary: bool, edit: Edit, word: u32) -> u32
    requires { group_size * cond secondary page.secondary page.primary + group_size ≤ length table.old }
    ensures { (vsid api : ℕ) → WantedWord false vsid api page.wanted → let group = cond secondary page.secondary page.primary in
        (table.new ≡ on_group table.old group (edit_matches edit secondary vsid api))
        × (result ≡ marks_of (group_matches secondary vsid api (group_of table.old group)) word) }
{
    let from = page.group(secondary) * numbers::GROUP_SIZE;
    let to = from + numbers::GROUP_SIZE;
    edit_group(&mut table[from..to], page.wanted_in(secondary), edit, word)
}

// Edits each match of a page's primary group, then of its secondary. The answer is the first one's second word as it was, with the marks of all.
pub fn edit_both(table: &mut [u8], page: groups::Located, second: u32, edit: Edit) -> u32
    requires { (group_size * page.primary + group_size ≤ length table.old) × (group_size * page.secondary + group_size ≤ length table.old)
        × (page.primary ≡ page.secondary → ⊥) }
    ensures { (vsid api : ℕ) → WantedWord false vsid api page.wanted
        → (table.new ≡ edit_pair edit vsid api page.primary page.secondary table.old)
        × (result ≡ marks_of (pair_matches vsid api (group_of table.old page.primary) (group_of table.old page.secondary)) second) }
{
    let word = edit_in(table, page, false, edit, second);
    edit_in(table, page, true, edit, word)
}

// Edits each match of a page, by the first one that its search found. The answer is that one's second word as it was, with the marks of all.
pub fn edit_page(table: &mut [u8], page: groups::Located, first: FirstMatch, edit: Edit) -> u32
    requires { (first.place.entry < group_entries) × (group_size * page.primary + group_size ≤ length table.old)
        × (group_size * page.secondary + group_size ≤ length table.old) × (page.primary ≡ page.secondary → ⊥) }
    ensures { (vsid api : ℕ) → WantedWord false vsid api page.wanted
        → found_of (pair_matches vsid api (group_of table.old page.primary) (group_of table.old page.secondary)) ≡ Some first
        → (table.new ≡ edit_pair edit vsid api page.primary page.secondary table.old)
        × (result ≡ marks_of (pair_matches vsid api (group_of table.old page.primary) (group_of table.old page.secondary)) first.second) }
{
    if first.others == Others::Absent {
        let group = page.group(first.place.secondary);
        edit_entry(table, group, first.place.entry, edit)
    } else {
        edit_both(table, page, first.second, edit)
    }
}
