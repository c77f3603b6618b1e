// Reading `rule` lines over a store.
ghost use Rattle.std.specs.Prelude.{◌≡◌, ℕ, ◌<◌, false, ◌&&◌, List, [], length, IfOk, ◌==◌};
ghost use Rattle.std.specs.List.{list_all};
ghost use Rattle.stores.specs.Outcome.{Advanced};
ghost use Rattle.names.specs.Names.{texts, distinct};
ghost use Rattle.rules.specs.Read.{names as names_of, lookup as lookup_of};
ghost use Rattle.rules.specs.Turns.{blamed_on, Goes, Turned, seen, known_item, foreign_line};
ghost use Rattle.stores.specs.Steps.{Runs, done};
ghost use Rattle.lines.specs.Lines.{lines_of};
ghost use Rattle.rulelines.specs.Faults.{described};
ghost use Rattle.rulelines.specs.Kinds.{kind_of};
ghost use Rattle.rules.specs.Read.{lined, answer_of};
ghost use Rattle.expressions.specs.Conditions.{item, condition_at};
ghost use Rattle.expressions.specs.Placed.{read_in};
ghost use Rattle.rules.specs.Ruled.{rule, by_kind, ruling, switching, ruled};
ghost use Rattle.rules.specs.Allowed.{allowed_by};
ghost use Rattle.rules.specs.Read.{RulesOutcome};
ghost use Rattle.evaluation.specs.Meaning.{Denotes};

use crate::entries::Switches;
use arrayvec::ArrayVec;
use evaluation::{Constants, Evaluator};
use expressions::condition::{MAX_LINE, Step};
use expressions::fault::ExpressionFault;
use expressions::operand::Operand;
use lines::first_line;
use names::{all_distinct, index_of};
use parser::condition;
use rulelines::fault::RuleFault;
use rulelines::kind::{LineKind, kind_of};
use stores::fault::StoreFault;
use stores::{MAX_SWITCHES, Store};

// Rule lines behind the `switch` lines: the switches' names in order, the text, and how many lines stand before it.
#[derive(Clone, Copy)]
pub struct RuleLines<'n, 'a> {
    pub names: &'n [&'n [u8]],
    pub text: &'a [u8],
    pub lines: usize,
}

// What the rules leave: the number of the allowed configurations that satisfy them all, and the text behind `begin`.
#[derive(Clone, Copy)]
pub struct Rules<'a> {
    pub allowed: u32,
    pub rest: &'a [u8],
}

// A store's answer while line `line` is read.
fn on_line(answer: Result<u32, StoreFault>, line: usize) -> Result<u32, RuleFault>
    ensures { result ≡ blamed_on line answer }
{
    answer.map_err(|fault| RuleFault::Store { fault, line })
}

// Is the step no name, or a declared one?
fn is_declared(step: Step<'_>, names: &[&[u8]]) -> bool
    ensures { result ≡ known_item (texts names.now) (item step.entry) }
{
    match step {
        Step::Defined(name) => index_of(names, name).is_some(),
        _ => true,
    }
}

// Is every name among the steps declared?
fn all_declared(steps: &[Step<'_>], names: &[&[u8]]) -> bool
    ensures { result ≡ list_all (λ step. known_item (texts names.now) (item step)) steps.now }
{
    steps.iter().all(|step| is_declared(*step, names))
}

// What every line is read with: the declared switches, and the numbers that stand for none and all of the allowed configurations.
type Reading<'a> = Evaluator<Switches<'a>>;

// Takes from what is allowed so far, `acc`, what the rule that stands there does not allow.
fn apply_rule<S: Store>(
    reading: Reading<'_>,
    operand: Operand<'_>,
    acc: u32,
    store: &mut S,
) -> Result<u32, RuleFault>
    ensures advanced { Advanced S.model S.rollback store.old store.new }
    ensures goes { let o = operand.entry in Goes S.model S.rollback S.need (λ next. rule (names_of reading.entry) (lookup_of reading.entry) reading.entry.known.none reading.entry.known.top acc o.number next (read_in o.line.now o.number (condition_at o.comments o.line.now o.from))) store.old store.new result }
{
    let line = operand.number;
    let rule = condition(operand)?;
    if !all_declared(rule.steps(), reading.entries.names) {
        return Err(RuleFault::Undeclared { line });
    }
    let set = on_line(reading.work_out(&rule, store), line)?;
    on_line(store.both(acc, set), line)
}

// A line of no known kind: its length is looked at first.
fn foreign(line: &[u8], number: usize) -> RuleFault
    ensures { foreign_line line.now number ≡ described result }
{
    if line.len() > MAX_LINE {
        return RuleFault::Expression(ExpressionFault::LineTooLong { line: number });
    }
    RuleFault::Misplaced { line: number }
}

// Reads one line, with `acc` what is allowed so far. The answer is what is allowed then; none where the lines are over.
fn read_line<S: Store>(
    reading: Reading<'_>,
    line: &[u8],
    number: usize,
    acc: u32,
    store: &mut S,
) -> Result<Option<u32>, RuleFault>
    ensures advanced { Advanced S.model S.rollback store.old store.new }
    ensures turned { (behind : List ℕ) → Turned S.model S.rollback S.need (by_kind (kind_of line.now) (names_of reading.entry) (lookup_of reading.entry) reading.entry.known.none reading.entry.known.top acc number (lined line.now behind)) acc behind store.old store.new result }
{
    let whole = Operand {
        line,
        from: 0,
        comments: false,
        number,
    };
    match kind_of(line) {
        LineKind::Blank => Ok(Some(acc)),
        LineKind::Rule { behind: from } => {
            let set = apply_rule(reading, Operand { from, ..whole }, acc, store)?;
            Ok(Some(set))
        }
        LineKind::Begin { behind: from } => {
            Operand { from, ..whole }.nothing()?;
            Ok(None)
        }
        LineKind::Switch { behind: from } => {
            Operand { from, ..whole }.only_name()?;
            Err(RuleFault::Misplaced { line: number })
        }
        LineKind::Foreign => Err(foreign(line, number)),
    }
}

// Reads lines up to `begin`; `lines` stand before the first.
fn read_lines<'a, S: Store>(
    reading: Reading<'_>,
    text: &'a [u8],
    lines: usize,
    store: &mut S,
) -> Result<Rules<'a>, RuleFault>
    ensures advanced { Advanced S.model S.rollback store.old store.new }
    ensures runs { Runs S.model S.rollback S.need (ruling (names_of reading.entry) (lookup_of reading.entry) reading.entry.known.none reading.entry.known.top reading.entry.known.top lines (lines_of text.now)) store.old store.new (seen answer_of result) }
{
    let mut allowed = reading.known.top;
    let mut number = lines;
    let mut rest = text;
    // no `for`: what stands behind `begin` is a part of the answer
    while !rest.is_empty() {
        let (line, behind) = first_line(rest);
        number = number.saturating_add(1);
        match read_line(reading, line, number, allowed, store)? {
            Some(set) => allowed = set,
            None => return Ok(Rules {
                allowed,
                rest: behind,
            }),
        }
        rest = behind;
    }
    Err(RuleFault::NoBegin)
}

// The numbers of all switches, in order.
fn switch_numbers<S: Store>(store: &mut S) -> Result<ArrayVec<u32, MAX_SWITCHES>, RuleFault>
    ensures advanced { Advanced S.model S.rollback store.old store.new }
    ensures runs { Runs S.model S.rollback S.need (switching (S.model store.old).n 0 [] done) store.old store.new (seen (λ v. v.items) result) }
{
    let mut numbers = ArrayVec::new();
    for i in 0..store.switches() {
        numbers.push(on_line(store.switch(i), 0)?);
    }
    Ok(numbers)
}

// The reading itself, which may be refused with numbers still held.
fn gather<'a, S: Store>(
    rules: RuleLines<'_, 'a>,
    known: Constants,
    store: &mut S,
) -> Result<Rules<'a>, RuleFault>
    ensures advanced { Advanced S.model S.rollback store.old store.new }
    ensures runs { Runs S.model S.rollback S.need (ruled (texts rules.entry.names.now) (S.model store.old).n known.none known.top rules.entry.lines rules.entry.text.now) store.old store.new (seen answer_of result) }
{
    let numbers = switch_numbers(store)?;
    let reading = Evaluator {
        entries: Switches {
            names: rules.names,
            numbers: numbers.as_slice(),
        },
        known,
    };
    read_lines(reading, rules.text, rules.lines, store)
}

// Is there one name for each of `n` switches, and are no two alike?
fn names_fit(names: &[&[u8]], n: u32) -> bool
    ensures { result ≡ (length (texts names.now) == n && distinct (texts names.now)) }
{
    names.len() == n as usize && all_distinct(names)
}

// Reads the lines behind the `switch` lines. Refused, the store is as it was; else it holds the answer's number.
pub fn read_rules<'a, S: Store>(
    rules: RuleLines<'_, 'a>,
    store: &mut S,
) -> Result<Rules<'a>, RuleFault>
    ensures advanced { Advanced S.model S.rollback store.old store.new }
    ensures outcome { RulesOutcome S.model S.rollback S.need (texts rules.entry.names.now) rules.entry.lines rules.entry.text.now store.old store.new result }
    ensures allowed { IfOk result (λ read. Denotes (S.model store.new) read.allowed (allowed_by (S.model store.old).allowed (texts rules.entry.names.now) (lines_of rules.entry.text.now))) }
{
    if !names_fit(rules.names, store.switches()) {
        return Err(RuleFault::Names);
    }
    let known = Constants {
        none: store.none(),
        top: store.top(),
    };
    let mark = store.mark();
    match gather(rules, known, store) {
        Ok(read) => {
            store.keep(mark);
            Ok(read)
        }
        Err(fault) => {
            store.release(mark);
            Err(fault)
        }
    }
}
