// Judges the rule lines on standard input over a bitmap store: how each switch stands, and the lowest allowed configuration.
#![tactic(auto)]

use bitmaps::Bitmaps;
use checking::check;
use std::io::Read;
use std::process::ExitCode;

// Room for 1,024 sets of 10 switches, and for more of fewer.
const WORDS: usize = 2 + 1024 * 16;

// As in `diagram_rulecheck`, but for the store: what the programs share is `check`.
fn main(rt: HostRuntime) -> anyhow::Result<ExitCode> {
    let heap = rt.alloc();
    let mut text = Vec::new(heap);
    rt.stdin().read_to_end(&mut text)?;
    let mut words = vec![in heap; 0u64; WORDS]?;
    check::<Bitmaps<'_>>(&rt, text.as_slice(), words.as_mut_slice())
}
