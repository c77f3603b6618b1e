// The lines of a source in order, each with its place.
ghost use Rattle.std.specs.Prelude.{◌≡◌, ◌+◌, ◌^◌, ◌≤◌, false, length};
ghost use Rattle.sources.specs.Lines.{lines};

use crate::line::Lines;
use scanning::open_after;

// A line with its line feed, if it has one, and where it stands in its source.
#[derive(Clone, Copy)]
pub struct SourceLine<'a> {
    pub text: &'a [u8],
    pub number: usize,
    pub in_comment: bool,
    pub last: bool,
}

// The lines of a source that are still to come, the number of the first of them, and the line before it, which is scanned
// only when the next one is asked for: whoever refuses a line asks for no more.
#[derive(Drop)]
pub struct SourceLines<'a> {
    rest: Lines<'a>,
    number: usize,
    before: &'a [u8],
    in_comment: bool,
    ghost countable: { number + length (lines rest.0.now) ≤ 2 ^ 63 },
}

impl<'a> SourceLines<'a> {
    ghost use Rattle.sources.specs.Places.{placed, left_of};

    // All lines of a source, counted from 1.
    pub fn new(source: &'a [u8]) -> SourceLines<'a>
        ensures { left_of result ≡ placed false 1 (lines source.now) }
    {
        SourceLines {
            rest: Lines(source),
            number: 1,
            before: &[],
            in_comment: false,
        }
    }
}

impl<'a> Iterator for SourceLines<'a> {
    ghost use Rattle.std.specs.Iterator.{YieldsFirstBy, item_count};
    ghost use Rattle.sources.specs.Places.{placed_of, left_of};

    type Item = SourceLine<'a>;

    ghost next_gives = { YieldsFirstBy placed_of left_of };

    ghost remaining = { item_count left_of };

    fn next(&mut self) -> Option<SourceLine<'a>> {
        let text = self.rest.next()?;
        self.in_comment = open_after(self.in_comment, self.before);
        self.before = text;
        let line = SourceLine {
            text,
            number: self.number,
            in_comment: self.in_comment,
            last: self.rest.0.is_empty(),
        };
        self.number += 1;
        Some(line)
    }
}
