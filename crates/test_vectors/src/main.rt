// Runs the cases of the manual and of packing, without input: a line a case in order, its number, a space, `ok` or `bad`.
// The file docs/CASES.md says what each number is and where its expected answer comes from.
#![tactic(auto)]

mod blocks;
mod manual;
mod packing;
mod page_protection;

use std::io;

fn main(rt: HostRuntime) -> io::Result<()> {
    manual::group_addresses(&rt)?;
    manual::sizes(&rt)?;
    manual::shapes(&rt)?;
    manual::segments(&rt)?;
    blocks::lengths(&rt)?;
    blocks::attributes(&rt)?;
    blocks::protection(&rt)?;
    blocks::summary(&rt)?;
    blocks::reserved(&rt)?;
    blocks::shapes(&rt)?;
    blocks::shared(&rt)?;
    page_protection::key_0(&rt)?;
    page_protection::key_1(&rt)?;
    page_protection::user_and_supervisor(&rt)?;
    page_protection::keys_exchanged(&rt)?;
    page_protection::marks(&rt)?;
    page_protection::exceptions(&rt)?;
    packing::packed(&rt)?;
    packing::unpacked(&rt)?;
    packing::wrong_lengths(&rt)
}
