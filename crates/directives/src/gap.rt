// Blanks and block comments in front of a line, and what stands behind them.
ghost use Rattle.std.specs.Prelude.{◌≡◌, List, ℕ};
ghost use Rattle.directives.specs.Gaps.{blank, skip, between, front, Skipped};

use text::{Class, behind_comment, class_of};

const LINE_FEED: u8 = b'\n';

pub fn is_blank(b: u8) -> bool
    ensures { result ≡ blank b }
{
    b == LINE_FEED || class_of(b) == Class::Blank
}

// What is left behind the blanks and block comments in front of a line that begins in code; nothing where a comment has no end.
// Not the gap in front of a token in `text`, where `//` begins a comment and a line feed is no blank: one loop for both would ask at each byte which is meant.
pub fn after_gap(line: &[u8]) -> &[u8]
    ensures value { result.now ≡ skip between line.now }
    ensures law { Skipped line.now result.now }
    ensures only { (s : List ℕ) → Skipped line.now s → s ≡ result.now }
{
    let mut rest = line;
    loop {
        match rest {
            [b'/', b'*', inside @ ..] => rest = behind_comment(inside),
            [first, tail @ ..] if is_blank(*first) => rest = tail,
            _ => return rest,
        }
    }
}

// The same of a line that may begin inside a block comment.
pub fn front_of(line: &[u8], in_comment: bool) -> &[u8]
    ensures { result.now ≡ front in_comment line.now }
{
    if in_comment {
        after_gap(behind_comment(line))
    } else {
        after_gap(line)
    }
}
