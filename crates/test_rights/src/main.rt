// Runs the cases of what a fetch, a load and a store would come to, without input: a line a case in order, its number, a space, `ok` or `bad`. The
// file docs/CASES.md says what each number is and where its expected answer comes from.
#![tactic(auto)]

mod asked;
mod blocks;
mod pages;
mod refused;

use std::io;

// Runs the cases of the module `pages`.
fn run_pages(rt: &impl Print) -> io::Result<()> {
    pages::marks(rt)?;
    pages::places(rt)?;
    pages::protected(rt)?;
    pages::fetches(rt)?;
    pages::no_match(rt)?;
    pages::edges(rt)
}

fn main(rt: HostRuntime) -> io::Result<()> {
    run_pages(&rt)?;
    blocks::real_mode(&rt)?;
    blocks::blocks(&rt)?;
    blocks::before_page(&rt)?;
    blocks::contradictions(&rt)?;
    refused::lengths(&rt)?;
    refused::alone(&rt)?;
    refused::in_order(&rt)
}
