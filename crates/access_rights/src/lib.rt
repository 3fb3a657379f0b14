// What a fetch, a load and a store of one byte would come to on a lent table, which is only read. The steps of a part are inlined, so that what they
// hand on stays in registers.
#![tactic(auto)]

ghost use Rattle.std.specs.Prelude.{◌≡◌, true, List, ℕ, length};
ghost use Rattle.register_words.specs.Sdr1.{mask_ones};
ghost use Rattle.register_words.specs.Block.{bl_width};
ghost use Rattle.registers.specs.Set.{block_pairs, sdr1_of, set_words};
ghost use Rattle.groups.specs.Hash.{TableOf};
ghost use Rattle.translation.specs.Steps.{before_search};
ghost use Rattle.theory_calls.specs.Request.{access, fed};
ghost use Rattle.theory_calls.specs.Rules.{refusal};
ghost use Rattle.table_access.specs.Part.{table_found, part_by};
ghost use Rattle.access_rights.specs.Rights.{asking, would_end};
ghost use Rattle.access_rights.specs.Held.{right_refused, rights_refused, stands_at, StandsIn, newly_marked, Tells, TellsAll};

use numbers::Refusal;
use register_pages::RegisterPage;
use std::ops::ControlFlow;
use table_access::{Access, Found, Part};
use translation::operand::OperandAnswer;

// The length of what is told: three answers of an access and three words.
pub const SIZE: usize = 156;

// What stands at an address: the pair of each side that covers it, and what the search of its page finds.
#[derive(Clone, Copy)]
pub struct Standing {
    pub ibat: Option<usize>,
    pub dbat: Option<usize>,
    pub found: Found,
}

// What the access of one kind would answer, and the marks that it would newly set in its entry.
#[derive(Clone, Copy)]
pub struct Right {
    pub told: OperandAnswer,
    pub marks: u32,
}

impl Right {
    // What an access that is refused would come to.
    fn refused(refusal: Refusal) -> Self
        ensures { result ≡ right_refused refusal }
    {
        Self {
            told: table_access::refused(refusal),
            marks: 0,
        }
    }
}

// What a fetch, a load and a store would come to.
#[derive(Clone, Copy)]
pub struct Rights {
    pub fetch: Right,
    pub load: Right,
    pub store: Right,
}

impl Rights {
    // What three accesses that are refused alike would come to.
    pub fn refused(refusal: Refusal) -> Self
        ensures { result ≡ rights_refused refusal }
    {
        let right = Right::refused(refusal);
        Self {
            fetch: right,
            load: right,
            store: right,
        }
    }
}

// What stands at an address, by one search for the three kinds.
#[tactic(auto, using(table_access::proofs::Parts::covered_is, entry::proofs::Addresses::index_lt), unfolding(register_words::specs::Segment::segment_vsid))]
fn standing_at(registers: RegisterPage<'_>, mode: u32, address: u32, table: &[u8]) -> Standing
    requires { TableOf (sdr1_of (set_words registers.bytes.now)) (length table.now) }
    ensures { result ≡ stands_at (set_words registers.entry.bytes.now) mode address
        (mask_ones (sdr1_of (set_words registers.entry.bytes.now))) table.now }
{
    let user = protection::user_mode(mode);
    let segment = registers.segment((address >> 28) as usize);
    let wanted = translation::wanted_of(user, segment, address);
    Standing {
        ibat: registers.covering_pair(false, user, address),
        dbat: registers.covering_pair(true, user, address),
        found: table_access::search(table, wanted),
    }
}

// Steps 1 to 6 of an access, by what stands at its address.
#[inline(always)]
#[tactic(auto, using(translation::proofs::Steps::before_real, translation::proofs::Steps::searches), unfolding(table_access::specs::Part::begun_by, table_access::specs::Part::part_by, protection::specs::Access::side_of))]
fn part_at(registers: RegisterPage<'_>, asked: Access, at: Standing) -> Part
    requires { (k : ℕ) × ((t : List ℕ) × (at ≡ stands_at (set_words registers.bytes.now) asked.mode asked.address k t)) }
    ensures { (k : ℕ) (t : List ℕ) → at ≡ stands_at (set_words registers.entry.bytes.now) asked.mode asked.address k t
        → result ≡ part_by asked.kind asked.address (table_found k t)
        (before_search (block_pairs true) (bl_width true) (set_words registers.entry.bytes.now) asked.mode asked.kind asked.address) }
{
    if !protection::is_relocated(asked.mode, asked.kind) {
        return table_access::real_part(asked.address);
    }
    let pair = if protection::is_fetch(asked.kind) {
        at.ibat
    } else {
        at.dbat
    };
    match table_access::before_search(registers, asked, pair) {
        ControlFlow::Break(part) => part,
        ControlFlow::Continue(wanted) => table_access::after_search(asked, wanted.key, at.found),
    }
}

// The marks that a done part would newly set: none where no entry of the table did it.
#[tactic(auto, using(crate::proofs::Marks::marks_grow))]
fn new_marks(kind: u32, found: Found) -> u32
    ensures { result ≡ newly_marked kind found }
{
    if let Found::InTable { second, .. } = found {
        return entry::with_marks(second, true, protection::is_store(kind)) - second;
    }
    0
}

// What an access of one byte that its arguments do not refuse would come to.
#[inline(always)]
fn right_of(registers: RegisterPage<'_>, asked: Access, at: Standing) -> Right
    requires { (t : List ℕ) × StandsIn (record { registers = registers.bytes.now; mode = asked.mode; address = asked.address }) t at }
    ensures { (t : List ℕ) → StandsIn (record { registers = registers.entry.bytes.now; mode = asked.mode; address = asked.address }) t at
        → refusal (fed (access (asking (record { registers = registers.entry.bytes.now; mode = asked.mode; address = asked.address })
        asked.kind))) (length t) ≡ 0
        → Tells t (would_end (record { registers = registers.entry.bytes.now; mode = asked.mode; address = asked.address }) t asked.kind) result }
{
    let part = part_at(registers, asked, at);
    let answer = part.answer;
    if answer.result != numbers::DONE {
        return Right {
            told: translation::operand::stopped(answer, part.decision),
            marks: 0,
        };
    }
    Right {
        told: translation::operand::within(answer, part.decision, 1),
        marks: new_marks(asked.kind, part.found),
    }
}

// What the three accesses of one byte would come to, where the lent lengths are right, or the rule that refuses each of them.
pub fn tell(
    registers: RegisterPage<'_>,
    mode: u32,
    address: u32,
    table: &[u8],
) -> Result<Rights, Refusal>
    ensures { TellsAll (record { registers = registers.entry.bytes.now; mode = mode; address = address }) table.now result }
{
    let fetch = Access {
        mode,
        kind: numbers::FETCH,
        address,
        length: 1,
    };
    table_access::check(registers, fetch, table.len())?;
    let load = Access {
        kind: numbers::LOAD,
        ..fetch
    };
    let store = Access {
        kind: numbers::STORE,
        ..fetch
    };
    let at = standing_at(registers, mode, address, table);
    Ok(Rights {
        fetch: right_of(registers, fetch, at),
        load: right_of(registers, load, at),
        store: right_of(registers, store, at),
    })
}
