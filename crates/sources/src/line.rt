// The lines of a source, and what a line is.
ghost use Rattle.std.specs.Prelude.{◌≡◌, ◌+◌, ◌<◌, ◌≤◌, ◌∷◌, ◌++◌, false, length, if◌then◌else◌, Ok, Err};
ghost use Rattle.std.specs.Iterator.{YieldsFirstRef, YieldsFirstBy, item_count};
ghost use Rattle.lines.specs.Lines.{until_feed};
ghost use Rattle.sources.specs.declared.fault.LineFault.TheVariants.{TooLarge};
ghost use Rattle.sources.specs.Lines.{lines, content as content_of, is_too_large};

use crate::fault::LineFault;
use expressions::condition::Condition;
use lines::first_line;

// How large a source may be.
pub const MAX_BYTES: usize = 65_535;

pub const MAX_LINES: usize = 4_095;

// A directive with its condition or name, or a line that is none of the ten directives.
#[derive(Drop)]
pub enum Line<'a> {
    Plain,
    Define(&'a [u8]),
    Undef(&'a [u8]),
    If(Condition<'a>),
    Elif(Condition<'a>),
    Else,
    Endif,
}

// The lines of a text that are still to come, each with its line feed, if it has one.
#[derive(Clone, Copy)]
pub struct Lines<'a>(pub &'a [u8]);

impl<'a> Iterator for Lines<'a> {
    type Item = &'a [u8];

    ghost next_gives = { YieldsFirstRef (λ s. lines s.0.now) };

    ghost remaining = { item_count (λ s. lines s.0.now) };

    fn next(&mut self) -> Option<&'a [u8]> {
        if self.0.is_empty() {
            return None;
        }
        let (line, behind) = next_line(self.0);
        self.0 = behind;
        Some(line)
    }
}

// The first line with its line feed, if it has one, and what stands behind it.
pub fn next_line(text: &[u8]) -> (&[u8], &[u8])
    ensures first { 0 < length text.now → lines text.now ≡ result.0.now ∷ lines result.1.now }
    ensures whole { text.now ≡ result.0.now ++ result.1.now }
    ensures shorter { 0 < length text.now → length result.1.now < length text.now }
    ensures content { until_feed result.0.now ≡ until_feed text.now }
{
    let (_, behind) = first_line(text);
    (&text[0..text.len() - behind.len()], behind)
}

// What stands before the first line feed: a line without its own.
pub fn content(line: &[u8]) -> &[u8]
    ensures { result.now ≡ content_of line.now }
{
    first_line(line).0
}

// Refuses a source with more bytes or lines than one may have.
pub fn check_size(text: &[u8]) -> Result<(), LineFault>
    ensures { result ≡ (if is_too_large text.now then Err TooLarge else Ok tt) }
{
    if text.len() > MAX_BYTES || Lines(text).count() > MAX_LINES {
        return Err(LineFault::TooLarge);
    }
    Ok(())
}
