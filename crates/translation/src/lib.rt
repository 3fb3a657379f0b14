// One access without a table's bytes: the page that it wants, the answers, the rule that decided it, and the parts of an operand.
#![tactic(auto)]

pub mod decision;
pub mod operand;

ghost use Rattle.std.specs.Prelude.{◌≡◌};
ghost use Rattle.protection.specs.Fault.{fault_of};
ghost use Rattle.translation.specs.Steps.{wanted_of, done_answer, fault_answer, refused_answer};

// What one access comes to.
// Stays as it is: `StepsBefore`, `StepsAfter` and `AnswersStated` (specs/Stated) speak of its variants.
#[derive(Clone, Copy)]
pub enum Outcome {
    // Done untranslated.
    Real,
    // Done by a block: the pair's number, the physical address, the attributes.
    Block(u32, u32, u32),
    // A fault by the PP of that pair's block.
    BlockProtection(u32),
    NoExecute,
    NoMatch,
    Guarded,
    // A fault by the PP of the entry with that second word.
    Protection(u32),
    // Done by the entry with that second word.
    Done(u32),
    Refused(u32),
}

// The page that a search looks for, and the key of its segment.
// Stays as it is: `StepsBefore` (specs/Stated), law `in_range_law`, speaks of its fields, and `marked_by` (theory_calls/specs/OnBytes) takes it.
#[derive(Clone, Copy)]
pub struct Wanted {
    pub vsid: u32,
    pub index: u32,
    pub key: bool,
}

// What the steps before the search come to.
// Stays as it is: `StepsBefore` (specs/Stated) and `marked_by` (theory_calls/specs/OnBytes) speak of its variants.
#[derive(Clone, Copy)]
pub enum Early {
    Decided(Outcome),
    Search(Wanted),
}

// What the search found: no match, the second word of the first match, or matches that contradict.
// Stays as it is, with the shape of an option in a result: `StepsAfter` (specs/Stated) and `found_in` (theory_calls/specs/OnMap) speak of its variants.
#[derive(Clone, Copy)]
pub enum Searched {
    Nothing,
    At(u32),
    Contradicting,
}

// The four words of an answer: result; physical address or fault word; attributes or interrupt offset; effective address.
// Stays four words: they are what the C interface writes, and `AnswersStated` (specs/Stated) speaks of them.
#[derive(Clone, Copy)]
pub struct Answer {
    pub result: u32,
    pub address: u32,
    pub attributes: u32,
    pub effective: u32,
}

// The page that the search looks for, at a segment and an address.
pub fn wanted_of(user: bool, segment: u32, address: u32) -> Wanted
    ensures { result ≡ wanted_of user segment address }
{
    Wanted {
        vsid: register_words::segment_vsid(segment),
        index: entry::page_index(address),
        key: protection::key_of(user, segment),
    }
}

// The answer of a done access.
pub fn done_answer(physical: u32, attributes: u32, effective: u32) -> Answer
    ensures { result ≡ done_answer physical attributes effective }
{
    Answer {
        result: numbers::DONE,
        address: physical,
        attributes,
        effective,
    }
}

// The answer of a fault: its words and the effective address.
pub fn fault_answer(cause: u32, kind: u32, effective: u32) -> Answer
    ensures { result ≡ fault_answer (fault_of cause kind) effective }
{
    let fault = protection::fault_of(cause, kind);
    Answer {
        result: fault.result,
        address: fault.word,
        attributes: fault.offset,
        effective,
    }
}

// The answer of a refusal: its number and three zero words.
// The number stays a number: `refused_answer` of specs/Steps answers for any.
pub fn refused_answer(number: u32) -> Answer
    ensures { result ≡ refused_answer number }
{
    Answer {
        result: number,
        address: 0,
        attributes: 0,
        effective: 0,
    }
}
