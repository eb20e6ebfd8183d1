//! Reads an application image from standard input. It tells its length, its sums, its entry and whether a controller may start it,
//! or, with the word `seal`, writes it back with its stored CRC-CCITT sum put right.
#![tactic(auto)]

use inspect::{Misuse, Task};
use std::env;
use std::io::{Read, Write};
use std::process::ExitCode;

fn main(rt: HostRuntime) -> ExitCode {
    program::exit_code(&rt, "imagesum", run(&rt))
}

// The task that the arguments name, which is to inspect where there is none.
fn task(rt: &HostRuntime) -> anyhow::Result<Task> {
    let mut words = env::args(rt)?.skip(1);
    let Some(word) = words.next() else {
        return Ok(Task::Inspect);
    };
    let task = word.as_str().parse::<Task>()?;
    match words.next() {
        None => Ok(task),
        Some(_) => Err(Misuse::TooManyWords.into()),
    }
}

fn run(rt: &HostRuntime) -> anyhow::Result<()> {
    let task = task(rt)?;
    let mut image = Vec::new(rt.alloc());
    rt.stdin().read_to_end(&mut image)?;
    match task {
        Task::Inspect => rt.print(inspect::inspect(image.as_slice()))?,
        Task::Seal => seal(rt, image.as_mut_slice())?,
    }
    Ok(())
}

// An image that cannot be sealed is written back as it came, so that nothing is lost.
fn seal(rt: &HostRuntime, image: &mut [u8]) -> anyhow::Result<()> {
    let sealed = inspect::seal(image);
    rt.stdout().write_all(image)?;
    rt.eprintln(sealed?)?;
    Ok(())
}
