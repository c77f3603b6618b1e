// A condition as the steps by which it is worked out.
ghost use Rattle.std.specs.Prelude.{◌≡◌, ◌-◌, ◌≤◌, length, take, drop};

use arrayvec::ArrayVec;

// The longest line with a condition, in bytes. Each token has a byte and gives at most one step, so that there are no more steps.
pub const MAX_LINE: usize = 255;

// Operands stand before their operation, left to right. A name is a part of the line that it was read from.
#[derive(Clone, Copy, Debug, Default)]
pub enum Step<'a> {
    #[default]
    Never,
    Always,
    Defined(&'a [u8]),
    Not,
    And,
    Or,
}

// The steps, over the line that they were read from.
#[derive(Drop)]
pub struct Condition<'a> {
    pub line: &'a [u8],
    pub steps: ArrayVec<Step<'a>, MAX_LINE>,
}

impl<'a> Condition<'a> {
    pub fn steps(&self) -> &[Step<'a>]
        ensures value { result.now ≡ self.now.steps.items }
        ensures bound { length result.now ≤ 255 }
    {
        self.steps.as_slice()
    }

    pub fn line(&self) -> &'a [u8]
        ensures { result.now ≡ self.now.line.now }
    {
        self.line
    }
}

// The bytes of a name: `len` of them from the place `at` of its line on, or as many as there are.
pub fn name_at(line: &[u8], at: usize, len: usize) -> &[u8]
    ensures { result.now ≡ take len (drop (at - 1) line.now) }
{
    let start = at.saturating_sub(1).min(line.len());
    let end = start + len.min(line.len() - start);
    &line[start..end]
}
