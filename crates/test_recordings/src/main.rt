// Runs accesses that an emulator of others performed, without input: a line a case in order, its number, a space, `ok` or `bad`.
// The file docs/CASES.md says what each number is.
#![tactic(auto)]

mod emulated_750;
mod emulated_970;
mod recorded;
mod text;

use std::io;

fn main(rt: HostRuntime) -> io::Result<()> {
    emulated_970::lines_1(&rt)?;
    emulated_970::lines_17(&rt)?;
    emulated_970::lines_33(&rt)?;
    emulated_970::lines_49(&rt)?;
    emulated_750::lines(&rt)
}
