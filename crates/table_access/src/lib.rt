// One access on a lent table, with a cache of translations or without one: the rules of its arguments in order, the parts of its operand, each by the
// steps, the marks, the loads and the answer. The search and what follows it are joined with a part by hints, so that
// what is handed on stays in the registers of the processor.
#![tactic(auto)]

ghost use Rattle.std.specs.Prelude.{◌≡◌, true, false, not, ◌&&◌, [], ◌∷◌, ◌++◌, ℕ, ◌+◌, ◌*◌, ◌<◌, eqb, ltb, length};
ghost use Rattle.numbers.specs.Numbers.{refused_table_length, refused_argument, refused_operand_length, access_answer_size};
ghost use Rattle.numbers.specs.Refused.{refusal_number, result_number};
ghost use Rattle.registers.specs.Rules.{first_broken};
ghost use Rattle.register_words.specs.Sdr1.{table_length, mask_ones};
ghost use Rattle.register_words.specs.Block.{bl_width};
ghost use Rattle.registers.specs.Set.{is_long, block_pairs, sdr1_of, register_rules, register_words, set_words};
ghost use Rattle.groups.specs.Page.{InRange};
ghost use Rattle.groups.specs.Hash.{TableOf, SomeTable};
ghost use Rattle.protection.specs.Access.{user_mode, relocated, side_of};
ghost use Rattle.translation.specs.Steps.{block_outcome, page_outcome, before_search, refused_answer, answer_of};
ghost use Rattle.translation.specs.Decision.{decided, decision_of};
ghost use Rattle.translation.specs.Operand.{part_start, stopped, operand_answer};
ghost use Rattle.translation.specs.declared.Outcome.TheVariants.{Real};
ghost use Rattle.translation.specs.declared.Wanted.{Wanted};
ghost use Rattle.cache.specs.Cache.{cache_size};
ghost use Rattle.theory_calls.specs.Request.{access};
ghost use Rattle.theory_calls.specs.Rules.{operand_in_range};
ghost use Rattle.theory_calls.specs.Answers.{access_answer};
ghost use Rattle.theory_calls.specs.OnBytes.{ended, wanted_page, on_bytes};
ghost use Rattle.theory_cache.specs.Cached.{on_cached};
ghost use Rattle.table_access.specs.Part.{call_of, covered_by, CacheOrNone, LiesIn, table_found, found_by, without_page, by_outcome, part_as, by_found, begun_by, part_by, taken_by, part_early, Comes};

use groups::Page;
use matches::Others;
use numbers::Refusal;
use register_pages::RegisterPage;
use std::ops::ControlFlow;
use translation::Wanted;
use translation::decision::{self, Decision, Used};
use translation::operand::{self, OperandAnswer};

// What an access asks for. Mode and kind stay numbers, since the calls answer for any (`mmu_access`).
#[derive(Clone, Copy)]
pub struct Access {
    pub mode: u32,
    pub kind: u32,
    pub address: u32,
    pub length: u32,
}

// The entry number that an answer shows of a hit, in its last word.
const HIT_ENTRY: u32 = 8;

// What the cache or the search finds of a page: no match, matches that contradict, or an entry. Of an entry it has the second word and the number of its
// group, and of one in the table its number there, since it is marked where the operand is done. Of matches that contradict it has the first.
#[derive(Clone, Copy)]
pub enum Found {
    Unmatched,
    Contradicted { second: u32, group: u32, entry: u32 },
    InCache { second: u32, group: u32 },
    InTable { second: u32, group: u32, entry: u32 },
}

// What a part of an operand answers, what decided it, and what was found of its page.
#[derive(Clone, Copy)]
pub struct Part {
    pub answer: translation::Answer,
    pub decision: Decision,
    pub found: Found,
}

// Whether an access may go on after the lent lengths, or the first rule that it breaks: the arguments' ranges, then the register page, then the
// table's length.
pub fn check(registers: RegisterPage<'_>, access: Access, lent: usize) -> Result<(), Refusal>
    ensures { result_number result ≡ first_broken ((not (ltb access.mode 8 && ltb access.kind 3), refused_argument)
        ∷ (not (operand_in_range access.length), refused_operand_length)
        ∷ register_rules (block_pairs (is_long (length registers.entry.bytes.now))) (bl_width (is_long (length registers.entry.bytes.now)))
        (register_words registers.entry.bytes.now)
        ++ ((not (eqb lent (table_length (sdr1_of (register_words registers.entry.bytes.now)))), refused_table_length) ∷ [])) }
{
    if !((access.mode < 8) & (access.kind < 3)) {
        return Err(Refusal::Argument);
    }
    if !((0 < access.length) & (access.length <= numbers::LONGEST_OPERAND)) {
        return Err(Refusal::OperandLength);
    }
    registers.check()?;
    if lent != register_words::table_length(registers.sdr1()) {
        return Err(Refusal::TableLength);
    }
    Ok(())
}

// The page that is searched for.
fn page_of(wanted: Wanted) -> Page
    ensures { result ≡ wanted_page wanted }
{
    Page {
        vsid: wanted.vsid,
        index: wanted.index,
    }
}

// Step 4 by the table: the first match of a page's two groups, and whether another contradicts it.
#[inline(always)]
pub fn search(table: &[u8], wanted: Wanted) -> Found
    requires { SomeTable (length table.now) × InRange (wanted_page wanted) }
    ensures { (sdr1 : ℕ) → TableOf sdr1 (length table.now) → result ≡ table_found (mask_ones sdr1) table.now wanted }
{
    let (at, told) = page_calls::search(page_of(wanted), table);
    let Some(first) = told.first else {
        return Found::Unmatched;
    };
    let second = first.second;
    let group = at.group(first.place.secondary) as u32;
    let entry = first.place.entry as u32;
    if first.others == Others::Differing {
        return Found::Contradicted {
            second,
            group,
            entry,
        };
    }
    Found::InTable {
        second,
        group,
        entry,
    }
}

// Step 4 with a cache: a hit is what the search finds. It shows the group that the loaded H names.
#[inline(always)]
fn cached_search(table: &[u8], cache: &[u8], kind: u32, wanted: Wanted) -> Found
    requires { SomeTable (length table.now) × InRange (wanted_page wanted) × CacheOrNone cache.now }
    ensures { (sdr1 : ℕ) → TableOf sdr1 (length table.now)
        → result ≡ found_by (mask_ones sdr1) kind table.now cache.now wanted }
{
    if cache.len() == cache::SIZE {
        let page = page_of(wanted);
        if let Some(hit) = cache::find(cache, protection::is_store(kind), page) {
            let at = groups::locate(table.len(), page);
            return Found::InCache {
                second: hit.second,
                group: at.group(entry::is_secondary(hit.first)) as u32,
            };
        }
    }
    search(table, wanted)
}

// A part that no page decides.
pub fn without_page(answer: translation::Answer, rule: u32, detail: u32) -> Part
    ensures { result ≡ without_page rule detail answer }
{
    Part {
        answer,
        decision: decision::decided(rule, detail),
        found: Found::Unmatched,
    }
}

// Step 1: in real mode the address is its own.
#[tactic(auto, unfolding(translation::specs::Steps::answer_of, translation::specs::Decision::decision_of))]
pub fn real_part(address: u32) -> Part
    ensures { (kind : ℕ) → result ≡ by_outcome kind address Real }
{
    let real = translation::done_answer(address, numbers::ATTRIBUTES_REAL, address);
    without_page(real, numbers::RULE_REAL, 0)
}

// Step 2, by the block of a pair that covers the address.
#[tactic(auto, unfolding(translation::specs::Steps::block_outcome, translation::specs::Steps::answer_of, translation::specs::Decision::decision_of))]
fn by_block(registers: RegisterPage<'_>, access: Access, pair: usize) -> Part
    requires { pair < block_pairs (is_long (length registers.bytes.now)) }
    ensures { result ≡ by_outcome access.kind access.address
        (block_outcome (block_pairs true) (bl_width true) (set_words registers.entry.bytes.now) access.kind access.address pair) }
{
    let side = protection::side_of(access.kind);
    let (upper, lower) = registers.pair(side, pair);
    if !protection::block_allows(register_words::block_pp(lower), access.kind) {
        let fault = translation::fault_answer(protection::PROTECTION, access.kind, access.address);
        return without_page(fault, numbers::RULE_BLOCK, pair as u32);
    }
    let physical = register_words::block_physical(upper, lower, access.address);
    let attributes = register_words::block_attributes(lower);
    let done = translation::done_answer(physical, attributes, access.address);
    without_page(done, numbers::RULE_BLOCK, pair as u32)
}

// That the access is translated stays a clause here and in the two functions that come to it: `translate` asks it once, and a type for it would be no
// plainer than that test.
// Steps 2 and 3 of a translated part, by the pair that covers the address: they end with the part, by a block or at a fetch with N = 1, or go on to
// the search of a page.
#[tactic(auto, using(crate::proofs::Parts::some_covered, crate::proofs::Parts::none_covered, register_pages::proofs::Page::covering_own), unfolding(crate::specs::Part::begun_by, translation::specs::Steps::before_search, translation::specs::Steps::answer_of, translation::specs::Decision::decision_of))]
pub fn before_search(
    registers: RegisterPage<'_>,
    access: Access,
    pair: Option<usize>,
) -> ControlFlow<Part, Wanted>
    requires { (relocated access.mode access.kind ≡ true)
        × (pair ≡ covered_by (set_words registers.bytes.now) (side_of access.kind) (user_mode access.mode) access.address) }
    ensures { result ≡ begun_by access.kind access.address
        (before_search (block_pairs true) (bl_width true) (set_words registers.entry.bytes.now) access.mode access.kind access.address) }
{
    if let Some(pair) = pair {
        return ControlFlow::Break(by_block(registers, access, pair));
    }
    let segment = registers.segment((access.address >> 28) as usize);
    if protection::is_fetch(access.kind) & register_words::no_execute(segment) {
        let fault = translation::fault_answer(protection::NO_FETCH, access.kind, access.address);
        return ControlFlow::Break(without_page(fault, numbers::RULE_NO_EXECUTE, 0));
    }
    let user = protection::user_mode(access.mode);
    ControlFlow::Continue(translation::wanted_of(user, segment, access.address))
}

// Steps 5 and 6 of a part whose page has an entry, by its second word and what is shown of it.
#[tactic(auto, unfolding(translation::specs::Steps::page_outcome, translation::specs::Steps::answer_of, translation::specs::Decision::decision_of))]
fn by_entry(access: Access, found: Found, second: u32, used: Used) -> Part
    ensures { result ≡ part_as access.kind access.address used (page_outcome access.kind used.key second) found }
{
    let wimg = entry::wimg_of(second);
    if protection::is_fetch(access.kind) & protection::is_guarded(wimg) {
        return Part {
            answer: translation::fault_answer(protection::NO_FETCH, access.kind, access.address),
            decision: decision::by_entry(numbers::RULE_GUARDED, 0, used),
            found,
        };
    }
    let detail = decision::key_and_pp(used.key, second);
    if !protection::page_allows(used.key, entry::pp_of(second), access.kind) {
        return Part {
            answer: translation::fault_answer(protection::PROTECTION, access.kind, access.address),
            decision: decision::by_entry(numbers::RULE_PROTECTION, detail, used),
            found,
        };
    }
    let physical = entry::physical_address(second, access.address);
    Part {
        answer: translation::done_answer(physical, wimg, access.address),
        decision: decision::by_entry(numbers::RULE_DONE, detail, used),
        found,
    }
}

// Steps 4 to 6, by what was found of the page.
#[inline(always)]
#[tactic(auto, unfolding(translation::specs::Steps::after_search, translation::specs::Steps::answer_of, translation::specs::Decision::decision_of))]
pub fn after_search(access: Access, key: bool, found: Found) -> Part
    ensures { result ≡ by_found access.kind access.address key found }
{
    match found {
        Found::Unmatched => Part {
            answer: translation::fault_answer(protection::NO_MATCH, access.kind, access.address),
            decision: decision::decided(numbers::RULE_NO_MATCH, 0),
            found,
        },
        Found::Contradicted { .. } => Part {
            answer: translation::refused_answer(u32::from(Refusal::Contradiction)),
            decision: decision::decided(0, 0),
            found,
        },
        Found::InCache { second, group } => {
            let used = Used {
                key,
                group,
                entry: HIT_ENTRY,
            };
            by_entry(access, found, second, used)
        }
        Found::InTable {
            second,
            group,
            entry,
        } => {
            let used = Used { key, group, entry };
            by_entry(access, found, second, used)
        }
    }
}

// Steps 2 to 6 of a translated part.
#[inline(always)]
#[tactic(auto, using(crate::proofs::Parts::covered_is, theory_calls::proofs::Access::part_valid), unfolding(crate::specs::Part::begun_by, crate::specs::Part::part_by))]
fn part_of(registers: RegisterPage<'_>, table: &[u8], cache: &[u8], access: Access) -> Part
    requires { TableOf (sdr1_of (set_words registers.bytes.now)) (length table.now) × CacheOrNone cache.now
        × (relocated access.mode access.kind ≡ true) }
    ensures { result ≡ part_by access.kind access.address
        (found_by (mask_ones (sdr1_of (set_words registers.entry.bytes.now))) access.kind table.now cache.now)
        (before_search (block_pairs true) (bl_width true) (set_words registers.entry.bytes.now) access.mode access.kind access.address) }
{
    let side = protection::side_of(access.kind);
    let user = protection::user_mode(access.mode);
    let pair = registers.covering_pair(side, user, access.address);
    match before_search(registers, access, pair) {
        ControlFlow::Break(part) => part,
        ControlFlow::Continue(wanted) => {
            let found = cached_search(table, cache, access.kind, wanted);
            after_search(access, wanted.key, found)
        }
    }
}

// Step 7 of a part of a done operand: R, and C on a store, in the table's entry that did it, and its page loaded where a cache is lent.
#[tactic(auto, using(groups::proofs::Lent::first_in_table, cache::proofs::None::no_bytes, cache::proofs::None::never_loaded), unfolding(crate::specs::Part::taken_by, groups::specs::Group::first_of))]
fn take(table: &mut [u8], cache: &mut [u8], access: Access, found: Found)
    requires { LiesIn found (length table.old) × CacheOrNone cache.old }
    ensures { (table.new, cache.new) ≡ taken_by access.kind access.address found (table.old, cache.old) }
{
    if let Found::InTable {
        second,
        group,
        entry,
    } = found
    {
        let group = group as usize;
        let entry = entry as usize;
        let first = words::read_word(
            table,
            group * numbers::GROUP_SIZE + numbers::ENTRY_SIZE * entry,
        );
        let marked = entry::with_marks(second, true, protection::is_store(access.kind));
        groups::put_entry(table, group, entry, first, marked);
        if cache.len() == cache::SIZE {
            let page = Page {
                vsid: entry::vsid_of(first),
                index: entry::page_index(access.address),
            };
            let words = entry::Words {
                first,
                second: marked,
            };
            cache::load(cache, page, words);
        }
    }
}

// Writes the twelve words of what an operand answers, and hands its result back.
#[tactic(auto, unfolding(theory_calls::specs::Answers::access_answer))]
pub fn tell(answer: &mut [u8], told: OperandAnswer) -> u32
    requires { length answer.old ≡ access_answer_size }
    ensures { (result ≡ told.part.result) × (answer.new ≡ access_answer told) }
{
    let part = told.part;
    let decision = told.decision;
    let twelve = [
        part.result,
        part.address,
        part.attributes,
        part.effective,
        told.address,
        told.attributes,
        told.bytes,
        told.rest,
        decision.rule,
        decision.detail,
        decision.group,
        decision.entry,
    ];
    words::write_words(answer, &twelve);
    part.result
}

// The parts of a translated operand that is not refused: the first page's, and then the next page's where the operand goes on there. They are taken
// where all are done.
fn by_parts(
    registers: RegisterPage<'_>,
    access: Access,
    table: &mut [u8],
    cache: &mut [u8],
) -> OperandAnswer
    requires { TableOf (sdr1_of (set_words registers.bytes.now)) (length table.old) × CacheOrNone cache.old
        × (relocated access.mode access.kind ≡ true) }
    ensures { Comes access (mask_ones (sdr1_of (set_words registers.entry.bytes.now))) (table.old, cache.old)
        (part_early (set_words registers.entry.bytes.now) access) result (table.new, cache.new) }
{
    let first = part_of(registers, table, cache, access);
    if first.answer.result != numbers::DONE {
        return operand::stopped(first.answer, first.decision);
    }
    let bytes = operand::first_bytes(access.address, access.length);
    if access.length <= bytes {
        take(table, cache, access, first.found);
        return operand::within(first.answer, first.decision, access.length);
    }
    let further = Access {
        address: operand::next_start(access.address, bytes),
        ..access
    };
    let second = part_of(registers, table, cache, further);
    if second.answer.result != numbers::DONE {
        return operand::stopped(second.answer, second.decision);
    }
    take(table, cache, access, first.found);
    take(table, cache, further, second.found);
    operand::across_edge(
        first.answer,
        first.decision,
        second.answer,
        bytes,
        access.length,
    )
}

// An operand in real mode: each part's address is its own, and nothing is marked.
fn untranslated(access: Access) -> OperandAnswer
    ensures { result ≡ operand_answer access.address access.length
        (λ second. answer_of access.kind (part_start access.address access.length second) Real)
        (λ second. decision_of (record { key = false; group = 0; entry = 0 }) Real) }
{
    let first = real_part(access.address);
    let bytes = operand::first_bytes(access.address, access.length);
    if bytes < access.length {
        let second = real_part(operand::next_start(access.address, bytes));
        return operand::across_edge(
            first.answer,
            first.decision,
            second.answer,
            bytes,
            access.length,
        );
    }
    operand::within(first.answer, first.decision, access.length)
}

// What an access that is refused answers: the refusal's number, and zero words.
pub fn refused(refusal: Refusal) -> OperandAnswer
    ensures { result ≡ stopped (refused_answer (refusal_number refusal)) (decided 0 0) }
{
    let answer = translation::refused_answer(u32::from(refusal));
    operand::stopped(answer, decision::decided(0, 0))
}

// One access whose lent lengths are right: its answer is written, the marks are made, and what went to the table is loaded. Where no cache is lent, it
// has no bytes: the definitions of a cache answer for none already, and with an `Option` each clause would speak of it twice.
pub fn translate(
    registers: RegisterPage<'_>,
    asked: Access,
    table: &mut [u8],
    cache: &mut [u8],
    answer: &mut [u8],
) -> u32
    requires { CacheOrNone cache.old × (length answer.old ≡ access_answer_size) }
    ensures cached { length cache.old ≡ cache_size
        → ended result (table.new, cache.new) answer.new
        ≡ on_cached (call_of registers.entry.bytes.now asked answer.old) (table.old, cache.old) }
    ensures uncached { length cache.old ≡ 0
        → ended result table.new answer.new
        ≡ on_bytes (access (call_of registers.entry.bytes.now asked answer.old)) table.old }
{
    if let Err(refusal) = check(registers, asked, table.len()) {
        return tell(answer, refused(refusal));
    }
    if !protection::is_relocated(asked.mode, asked.kind) {
        let real = untranslated(asked);
        return tell(answer, real);
    }
    let told = by_parts(registers, asked, table, cache);
    tell(answer, told)
}
