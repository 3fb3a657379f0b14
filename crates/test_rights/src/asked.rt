// What a case asks, what it lends, and what it holds the answer to. The page of the cases has VSID 0C701C and page index 0FFA: under SDR1 its groups
// are 998 and 25, and its API is 3.
use test_report::answered::begins_with;
use test_report::lent::{Entry, SDR1, registers, table_with};

// An address in that page.
pub const ADDRESS: u32 = 0x00FFAABC;

// What is told of one kind: result, physical address or fault word, attributes or offset, the record of the rule that decided, and the marks.
#[derive(Clone, Copy)]
pub struct Told {
    pub result: u32,
    pub word: u32,
    pub further: u32,
    pub record: [u32; 4],
    pub marks: u32,
}

impl Told {
    // The twelve words of an access to one byte; a refusal of matches that contradict shows no address.
    fn twelve(self, address: u32) -> [u32; 12] {
        let byte = if self.result == 0 { 1 } else { 0 };
        let shown = if self.result == 10 { 0 } else { address };
        let [a, b, c, d] = self.record;
        let (result, word, further) = (self.result, self.word, self.further);
        [result, word, further, shown, 0, 0, byte, 0, a, b, c, d]
    }
}

// Whether a call in this mode at this address is done, on a table with these entries, and tells this of a fetch, a load and a store.
pub fn tells_at(
    page: [u8; 132],
    mode: u32,
    address: u32,
    entries: &[Entry],
    told: [Told; 3],
) -> bool {
    let mut answer = [0xAAu8; 156];
    let number = mmu::mmu_rights(&page, mode, address, &table_with(entries), &mut answer);
    let [fetch, load, store] = told;
    number == 0
        && begins_with(&answer, &fetch.twelve(address))
        && begins_with(&answer[48..], &load.twelve(address))
        && begins_with(&answer[96..], &store.twelve(address))
        && begins_with(&answer[144..], &[fetch.marks, load.marks, store.marks])
}

// Whether it tells so of the supervisor's accesses at the address of the cases, translated, by this segment register 0.
pub fn tells(segment: u32, entries: &[Entry], told: [Told; 3]) -> bool {
    let page = registers(&[(0, SDR1), (1, segment)]);
    tells_at(page, 3, ADDRESS, entries, told)
}

// Done by an entry of frame 12345: WIMG, key × 4 + PP, where it stands, and the marks.
pub fn done(wimg: u32, right: u32, group: u32, entry: u32, marks: u32) -> Told {
    Told {
        result: 0,
        word: 0x12345ABC,
        further: wimg,
        record: [6, right, group, entry],
        marks,
    }
}

// Done without an entry: the rule, the physical address and the attributes.
pub fn done_by(rule: u32, physical: u32, attributes: u32) -> Told {
    Told {
        result: 0,
        word: physical,
        further: attributes,
        record: [rule, 0, 0, 0],
        marks: 0,
    }
}

// A fault of a load or a store: its word and the record.
pub fn no_data(word: u32, record: [u32; 4]) -> Told {
    Told {
        result: 64,
        word,
        further: 0x300,
        record,
        marks: 0,
    }
}

// One of a fetch.
pub fn no_fetch(word: u32, record: [u32; 4]) -> Told {
    Told {
        result: 65,
        further: 0x400,
        ..no_data(word, record)
    }
}

// Matches that contradict.
pub const CONTRADICTED: Told = Told {
    result: 10,
    word: 0,
    further: 0,
    record: [0; 4],
    marks: 0,
};
