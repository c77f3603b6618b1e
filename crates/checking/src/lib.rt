// What the programs over rule texts do, whatever store they take. May use every crate below it but no one store.
// Promises: the status 0 only of a text that has a judgement, 1 only of one that is refused with a number.
#![tactic(auto)]

ghost use Rattle.std.specs.Prelude.{IfOk};
ghost use Rattle.checking.specs.Ends.{Ends};

use judging::judge;
use reporting::refuse;
use std::process::ExitCode;
use stores::in_words::InWords;

// Judges a rule text with a store in the words. For every switch in order it prints whether the rules leave it free, force it on or force it
// off, then the lowest allowed configuration; or the one line of a refusal, with status 1.
// The caller reads the text before it makes the words, so that these need no room beside a text that is still growing.
pub fn check<'w, S: InWords<'w> + Drop>(
    rt: &HostRuntime,
    text: &[u8],
    words: &'w mut [S::Word],
) -> anyhow::Result<ExitCode>
    ensures { IfOk result (Ends S.Store S.lies_in S.due S.room S.renewed text.now words.old) }
{
    match judge::<S>(rt.alloc(), text, words) {
        Ok(judgement) => {
            print!(rt; "{judgement}")?;
            Ok(ExitCode::SUCCESS)
        }
        Err(fault) => refuse(rt, fault.refusal()),
    }
}
