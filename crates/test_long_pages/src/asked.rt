// The register pages of the cases, of 132 and of 196 bytes, and what check, set register and access are held to on them.
use test_report::answered::begins_with;
use test_report::asked::Asked;
use test_report::lent::{SDR1, SEGMENT, registers};

// A register page of so many bytes.
#[derive(Clone, Copy)]
pub struct Page<const N: usize>(pub [u8; N]);

// One of 132 bytes.
pub type Short = Page<132>;

// One of 196.
pub type Long = Page<196>;

impl<const N: usize> Page<N> {
    // SDR1 and segment 0 of the cases, every block off.
    pub fn new() -> Self {
        Page(registers(&[(0, SDR1), (1, SEGMENT)]))
    }

    // With one word changed; a number past the last changes none.
    pub fn with(self, number: usize, word: u32) -> Self {
        let Page(mut bytes) = self;
        if number < N / 4 {
            words::write_word(&mut bytes, 4 * number, word);
        }
        Page(bytes)
    }

    // With a pair, by the number of its upper word.
    pub fn pair(self, number: u8, upper: u32, lower: u32) -> Self {
        let number = usize::from(number);
        self.with(number, upper).with(number + 1, lower)
    }

    // The number of its check.
    pub fn check(self) -> u32 {
        mmu::mmu_check(&self.0)
    }

    // Whether a word is replaced, and every other byte is as it was.
    pub fn takes(self, number: u8, word: u32) -> bool {
        let mut lent = self.0;
        let result = mmu::mmu_set_register(&mut lent, u32::from(number), word);
        result == 0 && lent == self.with(usize::from(number), word).0
    }

    // Whether a word is refused with this number, and the page is left.
    pub fn refuses_word(self, number: u32, word: u32, refusal: u32) -> bool {
        let mut lent = self.0;
        let result = mmu::mmu_set_register(&mut lent, number, word);
        result == refusal && lent == self.0
    }

    // Whether an access with this table answers these twelve words and leaves this table.
    pub fn marks(
        self,
        asked: Asked,
        table: [u8; 65536],
        twelve: [u32; 12],
        after: [u8; 65536],
    ) -> bool {
        let mut lent = table;
        let mut answer = [0xAAu8; 48];
        let number = asked.run(&self.0, &mut lent, &mut answer);
        number == twelve[0] && begins_with(&answer, &twelve) && lent == after
    }

    // Whether one with an empty table does and leaves it.
    pub fn answers(self, asked: Asked, twelve: [u32; 12]) -> bool {
        self.marks(asked, [0; 65536], twelve, [0; 65536])
    }

    // Whether it is done by the block of this number, whose WIMG is 0.
    pub fn blocks(self, asked: Asked, physical: u32, block: u32) -> bool {
        let twelve = [0, physical, 0, asked.address, 0, 0, 1, 0, 1, block, 0, 0];
        self.answers(asked, twelve)
    }

    // Whether a fetch or a load meets no match.
    pub fn loses(self, asked: Asked) -> bool {
        let [result, offset] = if asked.kind == 0 {
            [65, 0x400]
        } else {
            [64, 0x300]
        };
        let address = asked.address;
        let twelve = [result, 0x40000000, offset, address, 0, 0, 0, 0, 3, 0, 0, 0];
        self.answers(asked, twelve)
    }

    // Whether it is refused with this number.
    pub fn refuses(self, asked: Asked, refusal: u32) -> bool {
        self.answers(asked, [refusal, 0, 0, 0, 0, 0, 0, 0, 0, 0, 0, 0])
    }
}

// The long page of the cases with one pair on.
pub fn one(number: u8, upper: u32, lower: u32) -> Long {
    Page::new().pair(number, upper, lower)
}

// With two.
pub fn two(number: u8, upper: u32, other: u8, other_upper: u32) -> Long {
    one(number, upper, 2).pair(other, other_upper, 2)
}

// A fetch of the supervisor, translated.
pub fn fetch(address: u32) -> Asked {
    Asked::byte(3, 0, address)
}

// A load.
pub fn load(address: u32) -> Asked {
    Asked::byte(3, 1, address)
}
