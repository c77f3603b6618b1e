// The texts over a bitmap store.
use crate::limits;
use crate::tables::{ANSWERED, REFUSED_EXPRESSIONS, REFUSED_LINES};
use crate::texts::{Over, all, gives_in, lines_of};
use bitmaps::Bitmaps;
use std::alloc::Global;
use std::test::Fail;

// As in `diagram_store`, but for the store: each test there and here is one call, since a test takes no type parameter.
struct OverBitmaps;

impl Over for OverBitmaps {
    fn shown(&self, heap: Global, text: &str, words: usize) -> Result<String, Fail> {
        let mut store = vec![in heap; 9u64; words]?;
        lines_of::<Bitmaps<'_>>(heap, text, store.as_mut_slice())
    }

    fn words(&self) -> usize {
        1024
    }
}

#[test]
fn answered(rt: HostRuntime) -> Result<(), Fail> {
    all(&rt, rt.alloc(), &OverBitmaps, ANSWERED)
}

#[test]
fn refused_lines(rt: HostRuntime) -> Result<(), Fail> {
    all(&rt, rt.alloc(), &OverBitmaps, REFUSED_LINES)
}

#[test]
fn refused_expressions(rt: HostRuntime) -> Result<(), Fail> {
    all(&rt, rt.alloc(), &OverBitmaps, REFUSED_EXPRESSIONS)
}

#[test]
fn levels(rt: HostRuntime) -> Result<(), Fail> {
    limits::levels(&rt, rt.alloc(), &OverBitmaps)
}

#[test]
fn line_lengths(rt: HostRuntime) -> Result<(), Fail> {
    limits::line_lengths(&rt, rt.alloc(), &OverBitmaps)
}

#[test]
fn name_lengths(rt: HostRuntime) -> Result<(), Fail> {
    limits::name_lengths(&rt, rt.alloc(), &OverBitmaps)
}

#[test]
fn switch_counts(rt: HostRuntime) -> Result<(), Fail> {
    limits::switch_counts(
        &rt,
        rt.alloc(),
        &OverBitmaps,
        "refused 7 store line 0 byte 0",
    )
}

#[test]
fn words_for_the_store(rt: HostRuntime) -> Result<(), Fail> {
    let heap = rt.alloc();
    let text = "switch A\nrule defined A\nbegin";
    gives_in(
        &rt,
        heap,
        &OverBitmaps,
        text,
        3,
        "refused 6 store line 0 byte 0",
    )?;
    gives_in(
        &rt,
        heap,
        &OverBitmaps,
        text,
        4,
        "refused 3 store line 0 byte 0",
    )?;
    gives_in(
        &rt,
        heap,
        &OverBitmaps,
        text,
        5,
        "refused 3 store line 2 byte 0",
    )
}
