// Chains of conditionals, their blocks, and the names of a source: what the lines read so far leave open, and the refusals 17 to 21.
// Uses the lines of `sources` and the look-up of `names`.
// Promises: behind every line the open chains, the number of blocks and the names with an entry, or the line's refusal, and then nothing is changed.
#![tactic(auto)]

ghost use Rattle.std.specs.Prelude.{◌≡◌, ◌≤◌, true, length, if◌then◌else◌, Ok, Err, nat_le};
ghost use Rattle.names.specs.Names.{texts};
ghost use Rattle.sources.specs.declared.fault.ConditionalReason.TheVariants.{TooManyBlocks, ChainOpen};
ghost use Rattle.sources.specs.Classified.{Line as Defined};
ghost use Rattle.sources.specs.Answers.{shown, seen};
ghost use Rattle.conditionals.specs.Shape.{shaped, opened, furthered, ended, entered, ends};
ghost use Rattle.conditionals.specs.Answers.{shape_of, beginning, start_of, shown_shape, Proper, Reads};

use arrayvec::ArrayVec;
use names::index_of;
use sources::fault::{ConditionalFault, ConditionalReason};
use sources::line::Line;
use sources::place::SourceLine;

// How many chains may be open at once.
pub const MAX_CHAINS: usize = 32;

// How many blocks a source may have: as many as a byte counts.
pub const MAX_BLOCKS: usize = 255;

// How many names may have an entry, the switches among them.
pub const MAX_NAMES: usize = 64;

// What the lines read so far leave open.
#[derive(Drop)]
pub struct Shape<'a> {
    // of each open chain, outermost first: was its `else` read?
    chains: ArrayVec<bool, MAX_CHAINS>,
    blocks: u8,
    // the names with an entry, the switches' first
    names: ArrayVec<&'a [u8], MAX_NAMES>,
}

impl<'a> Shape<'a> {
    // The shape before the first line, where the switches have an entry; none where there are more of them than names may have one.
    pub fn new(switches: &[&'a [u8]]) -> Option<Shape<'a>>
        ensures { start_of result ≡ beginning (texts switches.now) }
    {
        let Ok(names) = ArrayVec::try_from(switches) else {
            return None;
        };
        Some(Shape {
            chains: ArrayVec::new(),
            blocks: 0,
            names,
        })
    }

    // The names with an entry.
    pub fn names(&self) -> &[&'a [u8]]
        ensures value { texts result.now ≡ (shape_of self.now).names }
        ensures bound { length result.now ≤ 64 }
    {
        self.names.as_slice()
    }

    // How many blocks were opened.
    pub fn blocks(&self) -> usize
        ensures value { result ≡ (shape_of self.now).blocks }
        ensures bound { result ≤ 255 }
    {
        usize::from(self.blocks)
    }

    // How many chains are open.
    pub fn open_chains(&self) -> usize
        ensures value { result ≡ length (shape_of self.now).chains }
        ensures bound { result ≤ 32 }
    {
        self.chains.len()
    }

    // A line that opens and ends nothing. A chain that is open behind the source's last line is refused.
    fn pass(&self, line: &SourceLine<'_>) -> Result<(), ConditionalFault>
        ensures { Reads self.now self.now (ends line.now.last line.now.number (Ok (shape_of self.now))) result }
    {
        if line.last && !self.chains.is_empty() {
            return Err(ConditionalReason::ChainOpen.on(line.number));
        }
        Ok(())
    }

    // May one more block open on the line? Behind it, its chain is open.
    fn check_block(&self, line: &SourceLine<'_>) -> Result<(), ConditionalFault>
        ensures { result ≡ (if nat_le 255 self.now.blocks then Err (record { reason = TooManyBlocks; line = line.now.number }) else (if line.now.last then Err (record { reason = ChainOpen; line = line.now.number }) else Ok tt)) }
    {
        if self.blocks() >= MAX_BLOCKS {
            return Err(ConditionalReason::TooManyBlocks.on(line.number));
        }
        if line.last {
            return Err(ConditionalReason::ChainOpen.on(line.number));
        }
        Ok(())
    }

    // An `if` kind opens a chain and its first block.
    fn open_chain(&mut self, line: &SourceLine<'_>) -> Result<(), ConditionalFault>
        ensures { Reads self.old self.new (ends line.now.last line.now.number (opened line.now.number (shape_of self.old))) result }
    {
        if self.chains.is_full() {
            return Err(ConditionalReason::TooManyChains.on(line.number));
        }
        self.check_block(line)?;
        self.chains.push(false);
        self.blocks += 1;
        Ok(())
    }

    // An `elif` kind or the `else` opens a further block of the innermost chain.
    fn open_block(&mut self, is_else: bool, line: &SourceLine<'_>) -> Result<(), ConditionalFault>
        ensures { Reads self.old self.new (ends line.now.last line.now.number (furthered line.now.number is_else (shape_of self.old).chains (shape_of self.old))) result }
    {
        let Some(false) = self.chains.last().copied() else {
            return Err(ConditionalReason::OutsideChain.on(line.number));
        };
        self.check_block(line)?;
        if let Some(else_read) = self.chains.last_mut() {
            *else_read = is_else;
        }
        self.blocks += 1;
        Ok(())
    }

    // `endif` ends the innermost chain.
    fn end_chain(&mut self, line: &SourceLine<'_>) -> Result<(), ConditionalFault>
        ensures { Reads self.old self.new (ends line.now.last line.now.number (ended line.now.number (shape_of self.old).chains (shape_of self.old))) result }
    {
        if line.last && self.open_chains() > 1 {
            return Err(ConditionalReason::ChainOpen.on(line.number));
        }
        match self.chains.pop() {
            Some(_) => Ok(()),
            None => Err(ConditionalReason::OutsideChain.on(line.number)),
        }
    }

    // `define` makes an entry for a name that has none.
    fn enter(&mut self, name: &'a [u8], line: &SourceLine<'_>) -> Result<(), ConditionalFault>
        ensures { Reads self.old self.new (ends line.now.last line.now.number (entered line.now.number name.now true (shape_of self.old))) result }
    {
        if index_of(&self.names, name).is_some() {
            return self.pass(line);
        }
        if self.names.is_full() {
            return Err(ConditionalReason::TooManyNames.on(line.number));
        }
        self.pass(line)?;
        self.names.push(name);
        Ok(())
    }

    // Reads a line that stands at that place, or refuses it and stays as it is.
    pub fn read(&mut self, line: &Line<'a>, at: &SourceLine<'_>) -> Result<(), ConditionalFault>
        ensures outcome { Reads self.old self.new (ends at.now.last at.now.number (shown_shape at.now.number (shape_of self.old) (shown line.now))) result }
        ensures lines { (x : Defined) → Proper x → shown line.now ≡ seen x → Reads self.old self.new (ends at.now.last at.now.number (shaped at.now.number (shape_of self.old) x)) result }
    {
        match line {
            Line::Plain | Line::Undef(_) => self.pass(at),
            Line::Define(name) => self.enter(name, at),
            Line::If(_) => self.open_chain(at),
            Line::Elif(_) => self.open_block(false, at),
            Line::Else => self.open_block(true, at),
            Line::Endif => self.end_chain(at),
        }
    }
}
