// What a case asks of an access, and what it holds its answer to.
use super::answered::{begins_with, of_byte, record_is};

// Mode, kind, effective address and length of an access; mode and kind are the C interface's numbers, since cases ask for wrong ones too.
#[derive(Clone, Copy)]
pub struct Asked {
    pub mode: u32,
    pub kind: u32,
    pub address: u32,
    pub length: u32,
}

impl Asked {
    // An access to one byte.
    pub fn byte(mode: u32, kind: u32, address: u32) -> Self {
        Asked {
            mode,
            kind,
            address,
            length: 1,
        }
    }

    // The library's access.
    pub fn run(self, page: &[u8], table: &mut [u8], answer: &mut [u8]) -> u32 {
        mmu::mmu_access(
            page,
            self.mode,
            self.kind,
            self.address,
            self.length,
            table,
            answer,
        )
    }

    // Whether it answers, by this register page and table, these eight words first.
    pub fn begins(self, page: [u8; 132], table: &mut [u8], eight: [u32; 8]) -> bool {
        let mut answer = [0xAAu8; 48];
        let number = self.run(&page, table, &mut answer);
        number == eight[0] && begins_with(&answer, &eight)
    }

    // Whether it does, and leaves this table.
    pub fn answers(
        self,
        page: [u8; 132],
        table: &[u8; 65536],
        eight: [u32; 8],
        after: &[u8; 65536],
    ) -> bool {
        let mut lent = *table;
        self.begins(page, &mut lent, eight) && lent == *after
    }

    // Whether it, to one byte, answers these three words first and makes the table this one.
    pub fn answers_three(
        self,
        page: [u8; 132],
        table: &mut [u8; 65536],
        three: [u32; 3],
        after: &[u8; 65536],
    ) -> bool {
        self.begins(page, table, of_byte(three, self.address)) && *table == *after
    }

    // The same on a table of zeros, which is left.
    pub fn answers_without_entry(self, page: [u8; 132], three: [u32; 3]) -> bool {
        self.answers_three(page, &mut [0; 65536], three, &[0; 65536])
    }

    // Whether it has this result and shows this record of the rule that decided.
    pub fn shows(self, page: [u8; 132], table: &mut [u8], res: u32, record: [u32; 4]) -> bool {
        let mut answer = [0xAAu8; 48];
        let number = self.run(&page, table, &mut answer);
        number == res && record_is(&answer, res, record)
    }
}
