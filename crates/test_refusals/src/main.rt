// Runs the cases of refusals, of each order of two, and of the readings that tempt, without input: a line a case in order, its number, a
// space, `ok` or `bad`. The file docs/CASES.md says what each number is and where its expected answer comes from.
#![tactic(auto)]

mod access_refusals;
mod page_refusals;
mod readings;
mod register_refusals;

use std::io;

fn main(rt: HostRuntime) -> io::Result<()> {
    register_refusals::checks(&rt)?;
    register_refusals::sets_done(&rt)?;
    register_refusals::sets_refused(&rt)?;
    page_refusals::clears(&rt)?;
    page_refusals::map_arguments(&rt)?;
    page_refusals::maps(&rt)?;
    page_refusals::unmaps(&rt)?;
    page_refusals::protects(&rt)?;
    page_refusals::looks(&rt)?;
    access_refusals::alone(&rt)?;
    access_refusals::numbers_first(&rt)?;
    access_refusals::registers_next(&rt)?;
    access_refusals::every_mode(&rt)?;
    readings::secondary(&rt)?;
    readings::fields_of_match(&rt)?;
    readings::contradicting(&rt)?;
    readings::duplicates_used(&rt)?;
    readings::merged(&rt)?;
    readings::ignored(&rt)?;
    readings::map_places(&rt)?;
    readings::modes(&rt)?;
    access_refusals::past_a_byte(&rt)
}
