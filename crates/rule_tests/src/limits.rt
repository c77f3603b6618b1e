// At a limit, and one past it: what is alike over every store.
use crate::texts::{Over, gives, repeated};
use std::alloc::Global;
use std::process::Abort;
use std::test::Fail;

pub fn levels(rt: &impl Abort, heap: Global, over: &impl Over) -> Result<(), Fail> {
    let text = repeated(heap, "rule ", "!", 16, "1\nbegin")?;
    gives(rt, heap, over, text.as_str(), "lowest 0\n")?;
    let text = repeated(heap, "rule ", "!", 17, "0\nbegin")?;
    gives(
        rt,
        heap,
        over,
        text.as_str(),
        "refused 16 expression line 1 byte 22",
    )?;
    let text = repeated(heap, "rule ", "(", 17, "1\nbegin")?;
    gives(
        rt,
        heap,
        over,
        text.as_str(),
        "refused 16 expression line 1 byte 22",
    )
}

pub fn line_lengths(rt: &impl Abort, heap: Global, over: &impl Over) -> Result<(), Fail> {
    let text = repeated(heap, "rule 1", " ", 249, "\nbegin")?;
    gives(rt, heap, over, text.as_str(), "lowest 0\n")?;
    let text = repeated(heap, "rule 1", " ", 250, "\nbegin")?;
    gives(
        rt,
        heap,
        over,
        text.as_str(),
        "refused 12 lines line 1 byte 0",
    )?;
    let text = repeated(heap, "other", " ", 251, "\nbegin")?;
    gives(
        rt,
        heap,
        over,
        text.as_str(),
        "refused 12 lines line 1 byte 0",
    )?;
    let text = repeated(heap, "", " ", 300, "\nbegin")?;
    gives(rt, heap, over, text.as_str(), "lowest 0\n")
}

pub fn name_lengths(rt: &impl Abort, heap: Global, over: &impl Over) -> Result<(), Fail> {
    let longest = repeated(heap, "", "N", 63, " free\nlowest 0\n")?;
    let text = repeated(heap, "switch ", "N", 63, "\nbegin")?;
    gives(rt, heap, over, text.as_str(), longest.as_str())?;
    let text = repeated(heap, "switch ", "N", 64, "\nbegin")?;
    gives(
        rt,
        heap,
        over,
        text.as_str(),
        "refused 13 expression line 1 byte 8",
    )
}

// Ten switches, of which the last is on; and what an eleventh gives without a rule.
pub fn switch_counts(
    rt: &impl Abort,
    heap: Global,
    over: &impl Over,
    eleven: &str,
) -> Result<(), Fail> {
    let ten =
        "switch A\nswitch B\nswitch C\nswitch D\nswitch E\nswitch F\nswitch G\nswitch H\nswitch I\nswitch J\n";
    let all =
        "A free\nB free\nC free\nD free\nE free\nF free\nG free\nH free\nI free\nJ on\nlowest 512\n";
    let text = format!(in heap; "{ten}rule defined J\nbegin")?;
    gives(rt, heap, over, text.as_str(), all)?;
    let text = format!(in heap; "{ten}switch K\nno rule")?;
    gives(rt, heap, over, text.as_str(), eleven)
}
