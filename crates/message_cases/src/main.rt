// Reads, writes back and compares the documents' messages, and prints a line a case.
#![tactic(auto)]

mod cases;
mod report;

use std::io;

fn main(rt: HostRuntime) -> io::Result<()> {
    cases::rows(&rt)?;
    cases::neighbours(&rt)?;
    cases::reserved_bits(&rt)?;
    cases::lengths(&rt)?;
    cases::node_ids(&rt)?;
    cases::passed_along(&rt)?;
    cases::writing(&rt)
}
