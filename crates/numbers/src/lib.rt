// The numbers that calls hand back, a refusal's by its name, and the lengths of what they are lent; include/mmu.h has the same of them.
#![tactic(auto)]

ghost use Rattle.std.specs.Prelude.{◌≡◌};
ghost use Rattle.numbers.specs.Refused.{refusal_number, result_number};

// The call did what it was asked.
pub const DONE: u32 = 0;

// A load or a store, and a fetch, that is not allowed or not mapped.
pub const DATA_STORAGE_FAULT: u32 = 64;

pub const INSTRUCTION_STORAGE_FAULT: u32 = 65;

// Why a call refuses, by the number that the rules give it (rules 7).
#[derive(Clone, Copy, PartialEq, Eq, Debug, Drop)]
pub enum Refusal {
    TableLength = 1,
    Sdr1 = 2,
    Block = 3,
    BlocksShare = 4,
    Segment = 5,
    Argument = 6,
    Mapped = 7,
    NoMatch = 8,
    Full = 9,
    Contradiction = 10,
    LentLength = 11,
    OperandLength = 12,
}

// The number of a refusal.
impl From<Refusal> for u32 {
    ghost from_gives = { λ refusal number. number ≡ refusal_number refusal };

    fn from(refusal: Refusal) -> u32 {
        refusal as u32
    }
}

// The number that a call hands back: 0 where it is done, else the refusal's.
pub fn result_of(outcome: Result<(), Refusal>) -> u32
    ensures { result ≡ result_number outcome }
{
    match outcome {
        Ok(()) => DONE,
        Err(refusal) => u32::from(refusal),
    }
}

// The kinds of access (rules 5).
// Stay numbers: the calls answer for any kind, and the fault word is a match over them, a binding form (docs/DECISIONS.md, forms).
pub const FETCH: u32 = 0;

pub const LOAD: u32 = 1;

pub const STORE: u32 = 2;

// The attributes of an access in real mode: M and G.
pub const ATTRIBUTES_REAL: u32 = 3;

// The rules that decide an access (rules 5): rule r is step r + 1.
// Stay numbers: a rule is a word of the answer that C reads.
pub const RULE_REAL: u32 = 0;

pub const RULE_BLOCK: u32 = 1;

pub const RULE_NO_EXECUTE: u32 = 2;

pub const RULE_NO_MATCH: u32 = 3;

pub const RULE_GUARDED: u32 = 4;

pub const RULE_PROTECTION: u32 = 5;

pub const RULE_DONE: u32 = 6;

// Lengths in bytes: the short and the long register page, the answers of look and unmap and of an access, an entry's fields, a group and an entry; a page, and the
// longest operand.
pub const REGISTERS_SIZE_SHORT: usize = 132;

pub const REGISTERS_SIZE_LONG: usize = 196;

pub const ANSWER_SIZE: usize = 16;

pub const ACCESS_ANSWER_SIZE: usize = 48;

pub const FIELDS_SIZE: usize = 36;

pub const GROUP_SIZE: usize = 64;

pub const ENTRY_SIZE: usize = 8;

pub const PAGE_SIZE: u32 = 4096;

pub const LONGEST_OPERAND: u32 = 128;

// How many register words a short and a long page have, and how many entries a group has.
pub const REGISTER_COUNT_SHORT: u32 = 33;

pub const REGISTER_COUNT_LONG: u32 = 49;

pub const GROUP_ENTRIES: usize = 8;
