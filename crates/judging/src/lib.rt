// Judging a whole rule text: how each switch stands under the rules, and the lowest allowed configuration. May use every crate below it.
// Promises: what is answered is true of exactly the configurations that the rules allow.
#![tactic(auto)]

ghost use Rattle.std.specs.Prelude.{◌≡◌, ℕ, ◌<◌, IfOk, IfErr};
ghost use Rattle.lines.specs.Lines.{lines_of};
ghost use Rattle.names.specs.Names.{texts};
ghost use Rattle.rules.specs.Allowed.{allowed_by};
ghost use Rattle.judging.specs.Judged.{AllStand, Judged};
ghost use Rattle.judging.specs.Texts.{JudgedText};
ghost use Rattle.judging.specs.Layered.{LayerOutcome};
ghost use Rattle.judging.specs.Refused.{SwitchRefused, OverRefused, TextRefused};

pub mod fault;

use fault::JudgingFault;
use layers::Layer;
use layers::fault::LayerFault;
use rulelines::declaration::{Declarations, read_switches};
use rules::reading::{RuleLines, read_rules};
use standing::standing;
use standing::verdict::Standing;
use std::alloc::Global;
use std::fmt;
use stores::Store;
use stores::in_words::InWords;

// How every switch stands among what the store allows. The store is as before.
fn judge_switches<S: Store>(heap: Global, store: &mut S) -> Result<Vec<Standing>, JudgingFault>
    ensures same { store.new ≡ store.old }
    ensures stand { IfOk result (λ v. AllStand (S.model store.old).allowed (S.model store.old).n v.items) }
    ensures refused { IfErr result (SwitchRefused S.model S.rollback S.need store.old) }
{
    let mut standings = Vec::new(heap);
    for i in 0..store.switches() {
        standings.push(standing(store, i)?)?;
    }
    Ok(standings)
}

// A layer over the store that allows what is in its set `a`, or only why there is none.
fn layer_over<S: Store + Drop>(store: S, a: u32) -> Result<Layer<S>, LayerFault>
    ensures { LayerOutcome S.Store store a result }
{
    Layer::make(store, a).map_err(|refused| refused.fault)
}

// The standings of all switches under the rules, and the lowest configuration that these allow. The store is used up.
pub fn judge_over<S: Store + Drop>(
    heap: Global,
    rules: RuleLines<'_, '_>,
    mut store: S,
) -> Result<(Vec<Standing>, u32), JudgingFault>
    ensures judged { IfOk result (λ j. Judged (allowed_by (S.model store).allowed (texts rules.entry.names.now) (lines_of rules.entry.text.now)) (S.model store).n j.0.items j.1) }
    ensures refused { IfErr result (OverRefused S.Store (texts rules.entry.names.now) rules.entry.lines rules.entry.text.now store) }
{
    let read = read_rules(rules, &mut store)?;
    let mut layer = layer_over(store, read.allowed)?;
    let standings = judge_switches(heap, &mut layer)?;
    let lowest = layer.find(layer.top())?.ok_or(LayerFault::NoneAllowed)?;
    Ok((standings, lowest))
}

// What the rules of a text leave: the switches' names, how each stands, in the same order, and the lowest allowed configuration. Two lists: the names
// are handed on as they were read, and pairs would be a third list, for which memory could be wanting.
#[derive(Drop)]
pub struct Judgement<'a> {
    pub names: Vec<&'a [u8]>,
    pub standings: Vec<Standing>,
    pub lowest: u32,
}

// A line for each switch, its name and how it stands, and then the lowest configuration.
impl fmt::Display for Judgement<'_> {
    fn fmt<W: fmt::Write>(&self, f: &mut fmt::Formatter<W>) -> fmt::Result {
        for (name, standing) in self.names.iter().zip(self.standings.iter()) {
            for b in *name {
                f.write_char(char::from(*b))?;
            }
            writeln!(f, " {standing}")?;
        }
        let lowest = self.lowest;
        writeln!(f, "lowest {lowest}")
    }
}

// Judges a rule text with a store in the words.
pub fn judge<'a, 'w, S: InWords<'w> + Drop>(
    heap: Global,
    text: &'a [u8],
    words: &'w mut [S::Word],
) -> Result<Judgement<'a>, JudgingFault>
    ensures judged { IfOk result (JudgedText text.now) }
    ensures refused { IfErr result (TextRefused S.Store S.lies_in S.due S.room S.renewed text.now words.old) }
{
    let Declarations { names, lines, rest } = read_switches(heap, text)?;
    // beyond the largest number there are too many switches anyway
    let count = u32::try_from(names.len()).unwrap_or(u32::MAX);
    let store = S::make(words, count)?;
    let rules = RuleLines {
        names: names.as_slice(),
        text: rest,
        lines,
    };
    let (standings, lowest) = judge_over(heap, rules, store)?;
    Ok(Judgement {
        names,
        standings,
        lowest,
    })
}
