// The right to an access and its faults: mode and kind, the key, protection by PP, and fault words.
#![tactic(auto)]

ghost use Rattle.std.specs.Prelude.{◌≡◌};
ghost use Rattle.register_words.specs.Segment.{key_of};
ghost use Rattle.protection.specs.Access.{user_mode, fetching, storing, relocated, side_of};
ghost use Rattle.protection.specs.Protection.{page_allows, block_allows, guarded};
ghost use Rattle.protection.specs.Fault.{fault_of};

// The causes of a fault: no match, N or G, protection.
// Stay numbers: `fault_of` of specs/ takes any, and the fault word is a match over them, a binding form (docs/DECISIONS.md, forms).
pub const NO_MATCH: u32 = 0;

pub const NO_FETCH: u32 = 1;

pub const PROTECTION: u32 = 2;

// A storage fault: its result number, the fault word and the interrupt offset.
// Its result stays a number: it is the word that C reads.
#[derive(Clone, Copy)]
pub struct Fault {
    pub result: u32,
    pub word: u32,
    pub offset: u32,
}

// Whether PR is on: the access is the user's, else the supervisor's.
pub fn user_mode(mode: u32) -> bool
    ensures { result ≡ user_mode mode }
{
    (mode >> 2) & 1 == 1
}

// Whether the access is a fetch.
// This and `is_store` stay two: each is a sentence of the rules by its own name, and one function with the kind as a number is no plainer.
#[tactic(auto, unfolding(crate::specs::Access::fetching))]
pub fn is_fetch(kind: u32) -> bool
    ensures { result ≡ fetching kind }
{
    kind == numbers::FETCH
}

// Whether the access is a store.
#[tactic(auto, unfolding(crate::specs::Access::storing))]
pub fn is_store(kind: u32) -> bool
    ensures { result ≡ storing kind }
{
    kind == numbers::STORE
}

// The side whose blocks count: true for data, false for instructions.
#[tactic(auto, unfolding(crate::specs::Access::side_of))]
pub fn side_of(kind: u32) -> bool
    ensures { result ≡ side_of kind }
{
    !is_fetch(kind)
}

// Whether G of the attributes is one.
#[tactic(auto, unfolding(crate::specs::Protection::guarded))]
pub fn is_guarded(wimg: u32) -> bool
    ensures { result ≡ guarded wimg }
{
    wimg % 2 == 1
}

// Whether IR for a fetch, or DR for data, is on.
pub fn is_relocated(mode: u32, kind: u32) -> bool
    ensures { result ≡ relocated mode kind }
{
    if is_fetch(kind) {
        (mode >> 1) & 1 == 1
    } else {
        mode & 1 == 1
    }
}

// The key of a segment: Kp for the user, Ks for the supervisor.
pub fn key_of(user: bool, segment: u32) -> bool
    ensures { result ≡ key_of user segment }
{
    if user {
        (segment >> 29) & 1 == 1
    } else {
        (segment >> 30) & 1 == 1
    }
}

// Whether the key and a page's PP allow the access.
#[tactic(auto, unfolding(crate::specs::Protection::page_allows, crate::specs::Protection::page_readable, crate::specs::Protection::page_writable))]
pub fn page_allows(key: bool, pp: u32, kind: u32) -> bool
    ensures { result ≡ page_allows key pp kind }
{
    if is_store(kind) {
        if key { pp == 2 } else { pp != 3 }
    } else {
        !(key & (pp == 0))
    }
}

// Whether a block's PP allows the access: 10 allows all, 00 nothing.
#[tactic(auto, unfolding(crate::specs::Protection::block_allows))]
pub fn block_allows(pp: u32, kind: u32) -> bool
    ensures { result ≡ block_allows pp kind }
{
    if pp == 2 {
        return true;
    }
    (pp != 0) & !is_store(kind)
}

// The fault of a cause and a kind of access.
// Stays a match over the numbers of cause and kind, and no enum: a binding form (docs/DECISIONS.md, forms), and `fault_of` of specs/ answers for any number.
#[tactic(auto, unfolding(crate::specs::Fault::fault_of, crate::specs::Fault::cause_word, crate::specs::Access::fetching, crate::specs::Access::storing))]
pub fn fault_of(cause: u32, kind: u32) -> Fault
    ensures { result ≡ fault_of cause kind }
{
    let (word, offset) = match (cause, kind) {
        (NO_MATCH, numbers::FETCH) => (0x40000000, 0x400),
        (NO_MATCH, numbers::STORE) => (0x42000000, 0x300),
        (NO_MATCH, _) => (0x40000000, 0x300),
        (NO_FETCH, numbers::FETCH) => (0x10000000, 0x400),
        (NO_FETCH, numbers::STORE) => (0x12000000, 0x300),
        (NO_FETCH, _) => (0x10000000, 0x300),
        (_, numbers::FETCH) => (0x08000000, 0x400),
        (_, numbers::STORE) => (0x0A000000, 0x300),
        (_, _) => (0x08000000, 0x300),
    };
    let number = if is_fetch(kind) {
        numbers::INSTRUCTION_STORAGE_FAULT
    } else {
        numbers::DATA_STORAGE_FAULT
    };
    Fault {
        result: number,
        word,
        offset,
    }
}
