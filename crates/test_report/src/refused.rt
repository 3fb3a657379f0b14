// A refused access: what it is lent, and what a refusal leaves of that.
use super::answered::answer_refused;
use super::asked::Asked;
use super::lent::{Scene, refusal_page, table_of};

// The lengths that an access is lent: of the register page, the answer and the table.
#[derive(Clone, Copy)]
pub struct Lengths {
    pub page: usize,
    pub answer: usize,
    pub table: usize,
}

// The right ones.
pub const RIGHT: Lengths = Lengths {
    page: 132,
    answer: 48,
    table: 65536,
};

impl Lengths {
    // The right ones but for the register page's.
    pub fn with_page(page: usize) -> Self {
        Lengths { page, ..RIGHT }
    }

    // The right ones but for the answer's.
    pub fn with_answer(answer: usize) -> Self {
        Lengths { answer, ..RIGHT }
    }

    // The right ones but for the table's.
    pub fn with_table(table: usize) -> Self {
        Lengths { table, ..RIGHT }
    }
}

// The number of a refused access by the register page with these four words, lent parts of these lengths; none where it changes the table, or where the
// answer is not the number and eleven zero words (at 11: not as it was lent).
pub fn refused(scene: Scene, lengths: Lengths, asked: Asked, four: [u32; 4]) -> Option<u32> {
    let page = refusal_page(four);
    let before = table_of(scene);
    let mut table = before;
    let mut answer = [0xAAu8; 52];
    let number = asked.run(
        &page[..lengths.page.min(136)],
        &mut table[..lengths.table.min(131072)],
        &mut answer[..lengths.answer.min(52)],
    );
    (table == before && answer_refused(&answer, number)).then_some(number)
}
