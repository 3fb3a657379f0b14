// Runs a case of each call on bytes written out: tables, register pages, caches and answers are literal bytes, and nothing of the library lays or
// reads them. Without input: a line a case in order, its number, a space, `ok` or `bad`. The file docs/CASES.md says what each number is.
#![tactic(auto)]

mod accesses;
mod cached;
mod lent;
mod pages;
mod without_table;

use std::io;

fn main(rt: HostRuntime) -> io::Result<()> {
    pages::tables(&rt)?;
    pages::answers(&rt)?;
    accesses::pages(&rt)?;
    accesses::others(&rt)?;
    without_table::pages(&rt)?;
    without_table::entries(&rt)?;
    cached::caches(&rt)?;
    cached::rights(&rt)
}
