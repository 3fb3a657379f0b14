// What the cases lend: entries in tables and register pages.

// The good value of each word that a refusal's case breaks, and a bad one: SDR1.
pub const SDR1: u32 = 0x0F980000;

// SDR1 with reserved bit 22 set; it names a table of 65,536 bytes all the same.
pub const BAD_SDR1: u32 = 0x0F980200;

// A segment register, and one with T.
pub const SEGMENT: u32 = 0x000C701C;

pub const BAD_SEGMENT: u32 = 0x800C701C;

// The upper word of a block that is off.
pub const OFF: u32 = 0;

// The upper word of a block whose BL is 2.
pub const BAD_BLOCK: u32 = 0x0000000A;

// The upper word of a block within 80001FFE's.
pub const SHARED: u32 = 0x88000002;

// The page of the cases: its VSID and page index. Under SDR1 its groups are 998 and 25.
pub const VSID: u32 = 0x0C701C;

pub const INDEX: u32 = 0x0FFA;

// An entry of a table: its group, its number in the group, and its two words.
#[derive(Clone, Copy)]
pub struct Entry {
    pub group: usize,
    pub entry: usize,
    pub first: u32,
    pub second: u32,
}

impl Entry {
    // The entry at a place, with these words.
    pub fn new(group: usize, entry: usize, first: u32, second: u32) -> Self {
        Entry {
            group,
            entry,
            first,
            second,
        }
    }

    // That of the page of the cases at the first place of its primary group, with this second word: V, the VSID and API 3 are its first.
    pub fn of_page(second: u32) -> Self {
        Entry::new(998, 0, 0x86380E03, second)
    }

    // That of the page after it, in its primary group.
    pub fn of_next_page(second: u32) -> Self {
        Entry::new(999, 3, 0x86380E03, second)
    }

    // Writes it into a table of at least 1024 groups; a place outside the first 1024 is left out.
    pub fn put(self, table: &mut [u8]) {
        if self.group < 1024 && self.entry < 8 && table.len() >= 65536 {
            groups::put_entry(table, self.group, self.entry, self.first, self.second);
        }
    }
}

// A table of 1024 groups with these entries and no other.
pub fn table_with(entries: &[Entry]) -> [u8; 65536] {
    let mut table = [0u8; 65536];
    for entry in entries {
        entry.put(&mut table);
    }
    table
}

// The table with one more entry.
pub fn with_entry(table: [u8; 65536], entry: Entry) -> [u8; 65536] {
    let mut more = table;
    entry.put(&mut more);
    more
}

// A table with an entry of each of the two pages, by their second words.
pub fn both_pages(before: u32, after: u32) -> [u8; 65536] {
    table_with(&[Entry::of_page(before), Entry::of_next_page(after)])
}

// What a table of a case has for that page.
#[derive(Clone, Copy)]
pub enum Scene {
    Empty,
    Mapped,
    Full,
    FullMapped,
    Contradicting,
}

// Fills both groups of the page with entries of eight other pages.
fn fill(table: &mut [u8]) {
    for group in [998, 25] {
        for entry in 0..8 {
            let number = entry as u32 + 1;
            let first = 0x80000000 + 0x80 * number;
            Entry::new(group, entry, first, 0x1000 * number + 2).put(table);
        }
    }
}

// The table of a scene, in the first 65,536 of twice as many bytes.
pub fn table_of(scene: Scene) -> [u8; 131072] {
    let mut table = [0u8; 131072];
    match scene {
        Scene::Empty => {}
        Scene::Mapped => Entry::of_page(0x12345012).put(&mut table),
        Scene::Full => fill(&mut table),
        Scene::FullMapped => {
            fill(&mut table);
            Entry::new(25, 7, 0x86380E43, 0x12345012).put(&mut table);
        }
        Scene::Contradicting => {
            Entry::of_page(0x12345012).put(&mut table);
            Entry::new(25, 0, 0x86380E43, 0x12346012).put(&mut table);
        }
    }
    table
}

// Writes a word of a register page by its number: 0 is SDR1, 1 to 16 are the segment registers, 17 to 24 the instruction pairs and 25 to 32 the data
// pairs, upper words first. A number past the page's end is left out.
pub fn set_register(page: &mut [u8], number: u8, word: u32) {
    let at = 4 * (number as usize);
    if at + 4 <= page.len() {
        words::write_word(page, at, word);
    }
}

// A register page with these words and every other word zero.
pub fn registers<const N: usize>(words: &[(u8, u32)]) -> [u8; N] {
    let mut page = [0u8; N];
    for (number, word) in words {
        set_register(&mut page, *number, *word);
    }
    page
}

// The four words in which the register pages of the refusals differ: SDR1, segment 15, the upper word of the first instruction pair and that of the second
// data pair. These are a good page's, and those of the pages that are refused with 2, 3, 4 and 5.
pub const GOOD: [u32; 4] = [SDR1, SEGMENT, OFF, OFF];

pub const BROKEN_2: [u32; 4] = [BAD_SDR1, SEGMENT, OFF, OFF];

pub const BROKEN_3: [u32; 4] = [SDR1, SEGMENT, BAD_BLOCK, OFF];

pub const BROKEN_4: [u32; 4] = [SDR1, SEGMENT, OFF, SHARED];

pub const BROKEN_5: [u32; 4] = [SDR1, BAD_SEGMENT, OFF, OFF];

// A register page of a refusal in the first 132 of 136 bytes: these words, segment 0 as in the cases, and data pair 80001FFE 10000002.
pub fn refusal_page(four: [u32; 4]) -> [u8; 136] {
    let [sdr1, segment, instruction, data] = four;
    registers(&[
        (0, sdr1),
        (1, SEGMENT),
        (16, segment),
        (17, instruction),
        (25, 0x80001FFE),
        (26, 0x10000002),
        (27, data),
        (28, 0x20000002),
    ])
}
