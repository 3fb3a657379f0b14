// The rule that decided a part of an operand, and what it went by.
ghost use Rattle.std.specs.Prelude.{◌≡◌};
ghost use Rattle.translation.specs.Decision.{decided, by_entry, key_and_pp};

// The number of the rule; the block's number in rule 1, key × 4 + PP in rules 5 and 6; the numbers of the group and the entry in rules 4 to 6.
// Stays four numbers, and the rule no enum: they are what the C interface writes, `rule_words` (theory_calls/specs/Answers).
#[derive(Clone, Copy)]
pub struct Decision {
    pub rule: u32,
    pub detail: u32,
    pub group: u32,
    pub entry: u32,
}

// What a search went by: the key of the segment, and the group and the number of the first match.
// Stays as it is: `hit_answers` of `AccessOnAnyCache` (theory_cache/specs/AnyCache) speaks of its fields.
#[derive(Clone, Copy)]
pub struct Used {
    pub key: bool,
    pub group: u32,
    pub entry: u32,
}

// A decision in which no entry plays a part.
pub fn decided(rule: u32, detail: u32) -> Decision
    ensures { result ≡ decided rule detail }
{
    Decision {
        rule,
        detail,
        group: 0,
        entry: 0,
    }
}

// A decision by the first match.
pub fn by_entry(rule: u32, detail: u32, used: Used) -> Decision
    ensures { result ≡ by_entry rule detail used }
{
    Decision {
        rule,
        detail,
        group: used.group,
        entry: used.entry,
    }
}

// Key × 4 + PP, by the second word of an entry.
#[tactic(auto, unfolding(crate::specs::Decision::key_and_pp))]
pub fn key_and_pp(key: bool, second: u32) -> u32
    ensures { result ≡ key_and_pp key second }
{
    let pp = entry::pp_of(second);
    if key { 4 + pp } else { pp }
}
