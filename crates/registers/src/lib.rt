// The register page: its lengths and how many words it has.
#![tactic(auto)]

ghost use Rattle.std.specs.Prelude.{◌≡◌};
ghost use Rattle.registers.specs.Set.{is_page, register_count};

// How many block pairs a side has in a set; of a short page's set the last four are zero.
pub const BLOCK_PAIRS: usize = 8;

// Whether a length is that of a register page, short or long.
pub fn is_page(size: usize) -> bool
    ensures { result ≡ is_page size }
{
    (size == numbers::REGISTERS_SIZE_SHORT) | (size == numbers::REGISTERS_SIZE_LONG)
}

// How many words a short or a long page has.
pub fn count_of(long: bool) -> u32
    ensures { result ≡ register_count long }
{
    if long {
        numbers::REGISTER_COUNT_LONG
    } else {
        numbers::REGISTER_COUNT_SHORT
    }
}
