// The two bits of protection that an edit puts into a match.
ghost use Rattle.std.specs.Prelude.{ℕ, ◌<◌, ◌^◌};

// PP, a number below 4.
#[derive(Clone, Copy, PartialEq, Eq, Debug)]
pub struct Pp {
    pub value: u32,
    pub ghost below: { value < 2 ^ 2 },
}
