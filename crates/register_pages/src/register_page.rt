// A register page's bytes, whose length is asked once, where the value is made.
ghost use Rattle.std.specs.Prelude.{◌≡◌, true, false, length, MatchResult};
ghost use Rattle.numbers.specs.declared.Refusal.TheVariants.{LentLength};
ghost use Rattle.registers.specs.Set.{is_page};

use numbers::Refusal;

// A register page's bytes, of the short length or the long one.
#[derive(Clone, Copy)]
pub struct RegisterPage<'a> {
    pub bytes: &'a [u8],
    pub ghost whole: { is_page (length bytes.now) ≡ true },
}

impl<'a> RegisterPage<'a> {
    // These bytes as a register page, or the refusal of another length.
    #[inline(always)]
    pub fn new(bytes: &'a [u8]) -> Result<RegisterPage<'a>, Refusal>
        ensures { MatchResult result (λ page. page.bytes.now ≡ bytes.now) (λ refusal. (refusal ≡ LentLength)
            × (is_page (length bytes.now) ≡ false)) }
    {
        if !registers::is_page(bytes.len()) {
            return Err(Refusal::LentLength);
        }
        Ok(RegisterPage { bytes })
    }
}
