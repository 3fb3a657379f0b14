// An operand's bytes lie in one page or in two. Each page's part answers by itself, and these put the parts' answers together.
ghost use Rattle.std.specs.Prelude.{◌≡◌, ◌+◌, ◌%◌, ◌^◌, ◌<◌};
ghost use Rattle.translation.specs.Operand.{first_bytes, stopped, within, across_edge};

use crate::Answer;
use crate::decision::Decision;

// What an operand answers: the four words of the part that answers for all, and the rule that decided that part; the second part's physical address
// and attributes, and the bytes in each page.
// Stays as it is, with its zero words: they are what the C interface writes, `access_answer` (theory_calls/specs/Answers).
#[derive(Clone, Copy)]
pub struct OperandAnswer {
    pub part: Answer,
    pub decision: Decision,
    pub address: u32,
    pub attributes: u32,
    pub bytes: u32,
    pub rest: u32,
}

// How many bytes of an operand lie in its first page.
#[tactic(auto, unfolding(crate::specs::Operand::first_bytes))]
pub fn first_bytes(address: u32, length: u32) -> u32
    ensures { result ≡ first_bytes address length }
{
    length.min(numbers::PAGE_SIZE - address % numbers::PAGE_SIZE)
}

// Where the part behind these bytes starts: after the last address comes address 0.
// Stays a sum that wraps: a binding form (docs/DECISIONS.md, forms).
pub fn next_start(address: u32, bytes: u32) -> u32
    ensures { result ≡ (address + bytes) % 2 ^ 32 }
{
    address.wrapping_add(bytes)
}

// A part that is not done answers for all.
pub fn stopped(part: Answer, decision: Decision) -> OperandAnswer
    ensures { result ≡ stopped part decision }
{
    within(part, decision, 0)
}

// An operand within one page that is done.
pub fn within(part: Answer, decision: Decision, length: u32) -> OperandAnswer
    ensures { result ≡ within part decision length }
{
    OperandAnswer {
        part,
        decision,
        address: 0,
        attributes: 0,
        bytes: length,
        rest: 0,
    }
}

// An operand over a page edge of which both parts are done.
pub fn across_edge(
    first: Answer,
    decision: Decision,
    second: Answer,
    bytes: u32,
    length: u32,
) -> OperandAnswer
    requires { bytes < length }
    ensures { result ≡ across_edge first decision second bytes length }
{
    OperandAnswer {
        part: first,
        decision,
        address: second.address,
        attributes: second.attributes,
        bytes,
        rest: length - bytes,
    }
}
