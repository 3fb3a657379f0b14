// What a case asks of an access with a cache, what it lends, and what it holds the outcome to. Every page here has VSID 0C701C and a page index of
// set 58: 0FFA, 0FBA, 0F7A and 0F3A, whose primary groups under SDR1 are 998, 934, 870 and 806, and whose API is 3.
use test_report::answered::begins_with;
use test_report::asked::Asked;
use test_report::lent::{Entry, SDR1, SEGMENT, registers};

// The first word of an entry of these pages in its primary group, and in its secondary.
pub const FIRST: u32 = 0x86380E03;

pub const FIRST_SECONDARY: u32 = 0x86380E43;

// Where the first place of set 58 begins.
pub const PLACE_0: usize = 1856;

// A place of a cache: the byte at which it begins and its four words, an entry's two, its page index, and 1 where it is the newer of its set.
#[derive(Clone, Copy)]
pub struct Place {
    pub at: usize,
    pub first: u32,
    pub second: u32,
    pub index: u32,
    pub newer: u32,
}

// The first place of set 58 with a primary entry.
pub fn place_0(second: u32, index: u32, newer: u32) -> Place {
    Place {
        at: PLACE_0,
        first: FIRST,
        second,
        index,
        newer,
    }
}

// The second.
pub fn place_1(second: u32, index: u32, newer: u32) -> Place {
    Place {
        at: PLACE_0 + 16,
        ..place_0(second, index, newer)
    }
}

// What an access is lent: a table and a cache.
#[derive(Clone, Copy, PartialEq)]
pub struct State {
    pub table: [u8; 65536],
    pub cache: [u8; 2048],
}

// A table with these entries, and a cache with these places; the rest is zero.
pub fn lent(entries: &[Entry], places: &[Place]) -> State {
    let mut state = State {
        table: [0; 65536],
        cache: [0; 2048],
    };
    for entry in entries {
        entry.put(&mut state.table);
    }
    for place in places {
        if place.at <= 2032 {
            let four = [place.first, place.second, place.index, place.newer];
            words::write_words(&mut state.cache[place.at..place.at + 16], &four);
        }
    }
    state
}

impl State {
    // The number and the answer of an access, by a register page whose segment register 0 is that of the cases.
    pub fn access(&mut self, asked: Asked) -> (u32, [u8; 48]) {
        let page = registers::<132>(&[(0, SDR1), (1, SEGMENT)]);
        let mut answer = [0xAAu8; 48];
        let number = mmu::mmu_access_cached(
            &page,
            asked.mode,
            asked.kind,
            asked.address,
            asked.length,
            &mut self.table,
            &mut self.cache,
            &mut answer,
        );
        (number, answer)
    }
}

// An access to one byte at this address, data translated for kinds 1 and 2 and instructions for kind 0, for the supervisor.
pub fn byte(kind: u32, address: u32) -> Asked {
    Asked::byte(if kind == 0 { 2 } else { 1 }, kind, address)
}

// Result, physical address or fault word, and the record of the rule that decided.
#[derive(Clone, Copy)]
pub struct Told {
    pub result: u32,
    pub word: u32,
    pub record: [u32; 4],
}

// Done by an entry with PP 2: rule 6, key 0, the group and the entry number.
pub fn done(word: u32, group: u32, entry: u32) -> Told {
    Told {
        result: 0,
        word,
        record: [6, 2, group, entry],
    }
}

// A load or a store without a match: this word.
pub fn unmatched(word: u32) -> Told {
    Told {
        result: 64,
        word,
        record: [3, 0, 0, 0],
    }
}

// A store that the PP 3 of an entry of group 998 forbids.
pub fn denied(entry: u32) -> Told {
    Told {
        result: 64,
        word: 0x0A000000,
        record: [5, 3, 998, entry],
    }
}

// Whether an access so lent answers so and leaves this.
pub fn goes(asked: Asked, before: &State, told: Told, after: &State) -> bool {
    let mut lent = *before;
    let (number, answer) = lent.access(asked);
    number == told.result
        && begins_with(&answer, &[told.result, told.word])
        && begins_with(&answer[32..], &told.record)
        && lent == *after
}

// Whether it leaves what it is lent.
pub fn leaves(asked: Asked, lent: &State, told: Told) -> bool {
    goes(asked, lent, told, lent)
}
