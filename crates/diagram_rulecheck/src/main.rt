// Judges the rule lines on standard input over a diagram store: how each switch stands, and the lowest allowed configuration.
#![tactic(auto)]

use checking::check;
use diagrams::Diagrams;
use std::io::Read;
use std::process::ExitCode;

// Room for all the cells that a diagram store uses.
const WORDS: usize = 1_090 + 4 * 65_535;

// As in `rulecheck`, but for the store: what the programs share is `check`.
fn main(rt: HostRuntime) -> anyhow::Result<ExitCode> {
    let heap = rt.alloc();
    let mut text = Vec::new(heap);
    rt.stdin().read_to_end(&mut text)?;
    let mut words = vec![in heap; 0u32; WORDS]?;
    check::<Diagrams<'_>>(&rt, text.as_slice(), words.as_mut_slice())
}
