// Writes what one configuration keeps of the C source on standard input. `-DNAME` declares a switch that is on, `-UNAME` one that is off. A source that is
// refused gets the one line of its refusal, and status 1.
#![tactic(auto)]

use expressions::operand::Operand;
use preprocessing::preprocess;
use reporting::refuse;
use std::env;
use std::io::{Read, Write};
use std::process::ExitCode;

// A switch as an option declares it.
#[derive(Clone, Copy)]
struct Switch<'a> {
    name: &'a [u8],
    on: bool,
}

// The switch that the option declares, if it is one of the two and has a name of the format.
fn switch_of(option: &[u8]) -> Option<Switch<'_>> {
    let switch = match option {
        [b'-', b'D', name @ ..] => Switch { name, on: true },
        [b'-', b'U', name @ ..] => Switch { name, on: false },
        _ => return None,
    };
    let operand = Operand {
        line: switch.name,
        from: 0,
        comments: false,
        number: 0,
    };
    let name = operand.only_name().ok()?;
    (name.text.len() == switch.name.len()).then_some(switch)
}

// Writes what the options' configuration keeps of the source.
fn run(rt: &HostRuntime, options: &[String], source: &[u8]) -> anyhow::Result<ExitCode> {
    let heap = rt.alloc();
    let mut names = Vec::new(heap);
    let mut configuration = 0u32;
    // the next switch's; none is left for the 33rd, and so many are refused
    let mut bit = 1u32;
    for option in options {
        let Some(switch) = switch_of(option.as_bytes()) else {
            eprintln!(rt; "usage: preprocess [-DNAME | -UNAME]... < SOURCE")?;
            return Ok(ExitCode::FAILURE);
        };
        names.push(switch.name)?;
        if switch.on {
            configuration |= bit;
        }
        bit <<= 1;
    }
    match preprocess(heap, names.as_slice(), configuration, source) {
        Ok(output) => {
            rt.stdout().write_all(output.as_slice())?;
            Ok(ExitCode::SUCCESS)
        }
        Err(fault) => refuse(rt, fault.refusal()),
    }
}

fn main(rt: HostRuntime) -> anyhow::Result<ExitCode> {
    let heap = rt.alloc();
    let mut options = Vec::new(heap);
    for option in env::args(&rt)?.skip(1) {
        options.push(option)?;
    }
    let mut source = Vec::new(heap);
    rt.stdin().read_to_end(&mut source)?;
    run(&rt, options.as_slice(), source.as_slice())
}
