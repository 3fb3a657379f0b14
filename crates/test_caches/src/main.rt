// Runs the cases of accesses with a cache and of invalidate, without input: a line a case in order, its number, a space, `ok` or `bad`. The file
// docs/CASES.md says what each number is and where its expected answer comes from.
#![tactic(auto)]

mod asked;
mod hits;
mod loads;
mod refused;
mod runs;

use std::io;

// Runs the cases of the module `loads`.
fn run_loads(rt: &impl Print) -> io::Result<()> {
    loads::first_loads(rt)?;
    loads::replaced(rt)?;
    loads::reloaded(rt)?;
    loads::not_loaded(rt)?;
    loads::garbage(rt)?;
    loads::two_pages(rt)
}

// Runs the cases of the module `hits`.
fn run_hits(rt: &impl Print) -> io::Result<()> {
    hits::answers(rt)?;
    hits::hidden(rt)?;
    hits::tests(rt)?;
    hits::faults(rt)?;
    hits::stores(rt)
}

fn main(rt: HostRuntime) -> io::Result<()> {
    run_loads(&rt)?;
    run_hits(&rt)?;
    refused::wrong_lengths(&rt)?;
    refused::in_order(&rt)?;
    refused::invalidates(&rt)?;
    runs::disciplined(&rt)?;
    runs::undisciplined(&rt)
}
