// Runs the cases of an operand's length and of operands over a page edge, without input: a line a case in order, its number, a space, `ok` or
// `bad`. The file docs/CASES.md says what each number is and where its expected answer comes from.
#![tactic(auto)]

mod asked;
mod blocks;
mod lengths;
mod pages;
mod segments;

use std::io;

// Runs the cases of the module `lengths`.
fn run_lengths(rt: &impl Print) -> io::Result<()> {
    lengths::parts(rt)?;
    lengths::refused_alone(rt)?;
    lengths::refused_in_order(rt)
}

// Runs the cases of the module `pages`.
fn run_pages(rt: &impl Print) -> io::Result<()> {
    pages::done(rt)?;
    pages::kept_bits(rt)?;
    pages::second_stops(rt)?;
    pages::first_stops(rt)?;
    pages::neither_done(rt)?;
    pages::duplicates(rt)?;
    pages::shared_groups(rt)
}

// Runs the cases of the module `segments`.
fn run_segments(rt: &impl Print) -> io::Result<()> {
    segments::two_segments(rt)?;
    segments::last_address(rt)
}

// Runs the cases of the module `blocks`.
fn run_blocks(rt: &impl Print) -> io::Result<()> {
    blocks::within_block(rt)?;
    blocks::two_means(rt)?;
    blocks::stopped(rt)
}

fn main(rt: HostRuntime) -> io::Result<()> {
    run_lengths(&rt)?;
    run_pages(&rt)?;
    run_segments(&rt)?;
    run_blocks(&rt)
}
