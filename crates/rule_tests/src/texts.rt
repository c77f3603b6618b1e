// Judging texts, whatever store they are judged over.
use judging::judge;
use std::alloc::Global;
use std::process::Abort;
use std::test::Fail;
use stores::in_words::InWords;

// A kind of store that texts are judged over.
pub trait Over {
    // The lines that the program would print for `text`, with so many words for the store.
    fn shown(&self, heap: Global, text: &str, words: usize) -> Result<String, Fail>;

    // Words enough for every text that is not about their number.
    fn words(&self) -> usize;
}

// The lines that the program would print for `text`, with the words for the store.
pub fn lines_of<'w, S: InWords<'w> + Drop>(
    heap: Global,
    text: &str,
    words: &'w mut [S::Word],
) -> Result<String, Fail> {
    match judge::<S>(heap, text.as_bytes(), words) {
        Ok(judgement) => Ok(format!(in heap; "{judgement}")?),
        Err(fault) => match fault.refusal() {
            Some(refusal) => Ok(format!(in heap; "{refusal}")?),
            None => Err(Fail::new("out of memory")),
        },
    }
}

// The text gives the lines with so many words.
pub fn gives_in(
    rt: &impl Abort,
    heap: Global,
    over: &impl Over,
    text: &str,
    words: usize,
    lines: &str,
) -> Result<(), Fail> {
    let given = over.shown(heap, text, words)?;
    assert!(rt; given.as_str() == lines, "{}", given.as_str());
    Ok(())
}

// The text gives the lines.
pub fn gives(
    rt: &impl Abort,
    heap: Global,
    over: &impl Over,
    text: &str,
    lines: &str,
) -> Result<(), Fail> {
    gives_in(rt, heap, over, text, over.words(), lines)
}

// Every text gives its lines.
pub fn all(
    rt: &impl Abort,
    heap: Global,
    over: &impl Over,
    table: &[(&str, &str)],
) -> Result<(), Fail> {
    for (text, lines) in table {
        gives(rt, heap, over, text, lines)?;
    }
    Ok(())
}

// `before`, then `count` times `part`, then `behind`. As in `source_tests`, parameters and all: a crate for two lines would be no plainer.
pub fn repeated(
    heap: Global,
    before: &str,
    part: &str,
    count: usize,
    behind: &str,
) -> Result<String, Fail> {
    let parts = part.repeat(heap, count)?;
    Ok(format!(in heap; "{before}{parts}{behind}")?)
}
