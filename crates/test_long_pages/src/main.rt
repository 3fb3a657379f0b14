// Runs the cases of register pages of 132 and of 196 bytes without input: a line a case in order, its number, a space, `ok` or `bad`. The file
// docs/CASES.md says what each number is and where its expected answer comes from.
#![tactic(auto)]

mod accesses;
mod asked;
mod lengths;
mod pairs;
mod sets;
mod shared;
mod sizes;
mod widened;

use std::io;

// Runs the cases of lengths and pairs.
fn run_pages(rt: &impl Print) -> io::Result<()> {
    lengths::checks(rt)?;
    lengths::sets(rt)?;
    lengths::accesses(rt)?;
    pairs::instruction(rt)?;
    pairs::data(rt)?;
    pairs::outside(rt)?;
    pairs::word_25(rt)
}

// Runs the cases of the rules of blocks.
fn run_blocks(rt: &impl Print) -> io::Result<()> {
    sizes::lengths(rt)?;
    sizes::shapes(rt)?;
    sizes::short_limit(rt)?;
    shared::two_of_eight(rt)?;
    shared::within(rt)?;
    shared::all_addresses(rt)?;
    shared::off(rt)
}

// Runs the cases of set register and access, and of a widened page.
fn run_calls(rt: &impl Print) -> io::Result<()> {
    sets::numbers(rt)?;
    sets::short_numbers(rt)?;
    sets::judged(rt)?;
    sets::renewed(rt)?;
    accesses::rights(rt)?;
    accesses::refusals(rt)?;
    accesses::beside_pages(rt)?;
    widened::checks(rt)?;
    widened::accesses(rt)?;
    widened::refusals(rt)?;
    widened::sets(rt)
}

fn main(rt: HostRuntime) -> io::Result<()> {
    run_pages(&rt)?;
    run_blocks(&rt)?;
    run_calls(&rt)
}
