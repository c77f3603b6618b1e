// What a program tells of a refusal. May use `faults`. Promises: a status is answered only of a refusal, and it is 1.
#![tactic(auto)]

ghost use Rattle.std.specs.Prelude.{◌≡◌, IfOk, IsSome};
ghost use Rattle.std.specs.Process.{exit_status};

use anyhow::anyhow;
use faults::Refusal;
use std::process::ExitCode;

// Prints the one line of a refusal, which ends the program with status 1. Where there is none, memory was wanting.
pub fn refuse(rt: &HostRuntime, refusal: Option<Refusal>) -> anyhow::Result<ExitCode>
    ensures { IfOk result (λ code. IsSome refusal × (exit_status code ≡ 1)) }
{
    let refusal = refusal.ok_or(anyhow!("out of memory"))?;
    println!(rt; "{refusal}")?;
    Ok(ExitCode::FAILURE)
}
