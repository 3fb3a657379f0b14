// Reads the numbers in a line of a recording file. The file tests/vectors/README.md says what its columns are.

ghost use Rattle.std.specs.Prelude.{◌≤◌};

// What is left of a line.
#[derive(Clone, Copy)]
pub struct Line<'a> {
    rest: &'a [u8],
}

impl<'a> Line<'a> {
    // A whole line.
    pub fn new(text: &'a [u8]) -> Self {
        Line { rest: text }
    }

    // Whether nothing is left.
    pub fn is_empty(self) -> bool {
        self.rest.is_empty()
    }

    // Takes the next number, of decimal digits.
    pub fn decimal(&mut self) -> u32 {
        self.number(10)
    }

    // Takes the next number, of hexadecimal digits.
    pub fn hexadecimal(&mut self) -> u32 {
        self.number(16)
    }

    // Takes the next number in a base, after a blank or not: it ends at the next byte that is no digit, at the line's end or after eight digits. So the
    // register page, 264 digits without a blank, is 33 numbers. No number has more digits, so nothing wraps.
    fn number(&mut self, base: u32) -> u32
        requires { (2 ≤ base) × (base ≤ 36) }
    {
        if let Some(rest) = self.rest.strip_prefix(b" ") {
            self.rest = rest;
        }
        let mut value: u32 = 0;
        for _ in 0..8usize {
            let [byte, rest @ ..] = self.rest else {
                break;
            };
            let Some(digit) = (*byte as char).to_digit(base) else {
                break;
            };
            value = value.wrapping_mul(base).wrapping_add(digit);
            self.rest = rest;
        }
        value
    }
}
