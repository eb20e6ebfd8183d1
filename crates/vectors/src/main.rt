//! Cases with values that were published or worked out independently, run through the libraries. What is printed is compared.
#![tactic(auto)]

mod changes;
mod images;
mod sums;

use std::process::ExitCode;

fn main(rt: HostRuntime) -> ExitCode {
    program::exit_code(&rt, "vectors", run(&rt))
}

fn run(rt: &HostRuntime) -> anyhow::Result<()> {
    sums::run(rt)?;
    changes::run(rt)?;
    images::run(rt)
}
