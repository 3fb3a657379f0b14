// Runs the cases of duplicate matches, which agree if RPN, WIMG and PP are equal, without input: a line a case in order, its number, a space,
// `ok` or `bad`. The file docs/CASES.md says what each number is and where its expected answer comes from.
#![tactic(auto)]

mod accesses;
mod asked;
mod contradicting;
mod edges;
mod looks;
mod others;
mod several;

use std::io;

fn main(rt: HostRuntime) -> io::Result<()> {
    looks::looks(&rt)?;
    accesses::loads(&rt)?;
    accesses::other_kinds(&rt)?;
    accesses::faults(&rt)?;
    accesses::touched(&rt)?;
    others::unmaps(&rt)?;
    others::protects(&rt)?;
    contradicting::in_both_groups(&rt)?;
    contradicting::in_one_group(&rt)?;
    several::one_group(&rt)?;
    several::third_differs(&rt)?;
    several::second_differs(&rt)?;
    several::three_agree(&rt)?;
    several::all_sixteen(&rt)?;
    edges::agreeing(&rt)?;
    edges::contradicting(&rt)
}
