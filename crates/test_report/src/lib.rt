// What the programs of cases share: the line of a case, what the cases lend (`lent`), what an answer is held to (`answered`), what they ask of an
// access (`asked`) and of a page call (`called`), and a refused access (`refused`).
#![tactic(auto)]

pub mod answered;
pub mod asked;
pub mod called;
pub mod lent;
pub mod refused;

use std::io;

// Writes a case's number, a space and `ok` or `bad`.
pub fn line(rt: &impl Print, number: u64, good: bool) -> io::Result<()> {
    let word = if good { "ok" } else { "bad" };
    println!(rt; "{number} {word}")
}
