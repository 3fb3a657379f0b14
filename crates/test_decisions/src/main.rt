// Runs the cases of the rule that decided an access, without input: a line a case in order, its number, a space, `ok` or `bad`. The file
// docs/CASES.md says what each number is and where its expected answer comes from.
#![tactic(auto)]

mod blocks;
mod parts;
mod places;
mod rights;
mod shown;
mod steps;

use std::io;

// Runs the cases of the module `steps`.
fn run_steps(rt: &impl Print) -> io::Result<()> {
    steps::real_mode(rt)?;
    steps::no_execute(rt)?;
    steps::no_match(rt)?;
    steps::guarded(rt)
}

// Runs the cases of the module `blocks`.
fn run_blocks(rt: &impl Print) -> io::Result<()> {
    blocks::pairs(rt)?;
    blocks::one_address(rt)?;
    blocks::first(rt)
}

// Runs the cases of the module `rights`.
fn run_rights(rt: &impl Print) -> io::Result<()> {
    rights::not_allowed(rt)?;
    rights::allowed(rt)?;
    rights::keys(rt)
}

// Runs the cases of the module `places`.
fn run_places(rt: &impl Print) -> io::Result<()> {
    places::in_primary(rt)?;
    places::in_secondary(rt)?;
    places::of_faults(rt)?;
    places::duplicates(rt)?;
    places::more_groups(rt)
}

// Runs the cases of the module `parts`.
fn run_parts(rt: &impl Print) -> io::Result<()> {
    parts::done(rt)?;
    parts::second_stops(rt)?;
    parts::first_stops(rt)?;
    parts::refused(rt)?;
    parts::with_block(rt)?;
    parts::two_segments(rt)
}

fn main(rt: HostRuntime) -> io::Result<()> {
    run_steps(&rt)?;
    run_blocks(&rt)?;
    run_rights(&rt)?;
    run_places(&rt)?;
    run_parts(&rt)
}
