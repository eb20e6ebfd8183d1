//! How each program of this repository ends.
#![tactic(auto)]

ghost use Rattle.std.specs.Prelude.{◌≡◌, cond};
ghost use Rattle.std.specs.Result.{is_ok};
ghost use Rattle.std.specs.Process.{exit_status};

use std::process::ExitCode;

/// Success, or status 1 after one line on standard error that says why.
pub fn exit_code(rt: &HostRuntime, name: &str, outcome: anyhow::Result<()>) -> ExitCode
    ensures { exit_status result ≡ cond (is_ok outcome) 0 1 }
{
    match outcome {
        Ok(()) => ExitCode::SUCCESS,
        Err(why) => {
            // Where standard error is closed, nobody can be told.
            let _ = eprintln!(rt; "{name}: {why}");
            ExitCode::FAILURE
        }
    }
}
