// The texts over a diagram store.
use crate::limits;
use crate::tables::{ANSWERED, REFUSED_EXPRESSIONS, REFUSED_LINES};
use crate::texts::{Over, all, gives, gives_in, lines_of};
use diagrams::Diagrams;
use std::alloc::Global;
use std::test::Fail;

struct OverDiagrams;

impl Over for OverDiagrams {
    fn shown(&self, heap: Global, text: &str, words: usize) -> Result<String, Fail> {
        let mut store = vec![in heap; 9u32; words]?;
        lines_of::<Diagrams<'_>>(heap, text, store.as_mut_slice())
    }

    // room for 200 cells of a diagram
    fn words(&self) -> usize {
        1_090 + 4 * 200
    }
}

#[test]
fn answered(rt: HostRuntime) -> Result<(), Fail> {
    all(&rt, rt.alloc(), &OverDiagrams, ANSWERED)
}

#[test]
fn refused_lines(rt: HostRuntime) -> Result<(), Fail> {
    all(&rt, rt.alloc(), &OverDiagrams, REFUSED_LINES)
}

#[test]
fn refused_expressions(rt: HostRuntime) -> Result<(), Fail> {
    all(&rt, rt.alloc(), &OverDiagrams, REFUSED_EXPRESSIONS)
}

#[test]
fn levels(rt: HostRuntime) -> Result<(), Fail> {
    limits::levels(&rt, rt.alloc(), &OverDiagrams)
}

#[test]
fn line_lengths(rt: HostRuntime) -> Result<(), Fail> {
    limits::line_lengths(&rt, rt.alloc(), &OverDiagrams)
}

#[test]
fn name_lengths(rt: HostRuntime) -> Result<(), Fail> {
    limits::name_lengths(&rt, rt.alloc(), &OverDiagrams)
}

#[test]
fn switch_counts(rt: HostRuntime) -> Result<(), Fail> {
    limits::switch_counts(
        &rt,
        rt.alloc(),
        &OverDiagrams,
        "refused 23 rules line 12 byte 0",
    )
}

// Declares a switch for each of the letters.
fn declared(heap: Global, letters: &str, behind: &str) -> Result<String, Fail> {
    let mut text = String::new(heap);
    for letter in letters.chars() {
        writeln!(text, "switch {letter}")?;
    }
    text.push_str(behind)?;
    Ok(text)
}

#[test]
fn most_switches(rt: HostRuntime) -> Result<(), Fail> {
    let heap = rt.alloc();
    let mut all = String::new(heap);
    for letter in "ABCDEFGHIJKLMNOPQRSTUVW".chars() {
        writeln!(all, "{letter} free")?;
    }
    all.push_str("X on\nlowest 8388608\n")?;
    let text = declared(heap, "ABCDEFGHIJKLMNOPQRSTUVWX", "rule defined X\nbegin")?;
    gives(&rt, heap, &OverDiagrams, text.as_str(), all.as_str())?;
    let text = declared(heap, "ABCDEFGHIJKLMNOPQRSTUVWXY", "no rule")?;
    gives(
        &rt,
        heap,
        &OverDiagrams,
        text.as_str(),
        "refused 7 store line 0 byte 0",
    )
}

// 2 cells are there from the start, a switch is one and its opposite another.
#[test]
fn words_for_the_store(rt: HostRuntime) -> Result<(), Fail> {
    let heap = rt.alloc();
    let text = "switch A\nrule !defined A\nbegin";
    gives_in(
        &rt,
        heap,
        &OverDiagrams,
        text,
        1_097,
        "refused 6 store line 0 byte 0",
    )?;
    gives_in(
        &rt,
        heap,
        &OverDiagrams,
        text,
        1_098,
        "refused 3 store line 0 byte 0",
    )?;
    gives_in(
        &rt,
        heap,
        &OverDiagrams,
        text,
        1_102,
        "refused 3 store line 2 byte 0",
    )?;
    gives_in(&rt, heap, &OverDiagrams, text, 1_106, "A off\nlowest 0\n")
}
