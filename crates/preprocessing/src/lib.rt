// What one configuration keeps of a source. May use every crate below it.
// Promises: the output is the plain preprocessor's, byte for byte, or the refusal is the first one due.
#![tactic(auto)]

ghost use Rattle.std.specs.Prelude.{◌≡◌};
ghost use Rattle.names.specs.Names.{texts};
ghost use Rattle.preprocessing.specs.Outcome.{Preprocesses};
ghost use Rattle.preprocessing.specs.Lines.{LineWritten, Writes};

pub mod fault;

use conditionals::Shape;
use fault::PreprocessingFault;
use names::all_distinct;
use preprocessor::state::State;
use reading::read_line;
use sources::line::check_size;
use sources::place::{SourceLine, SourceLines};
use std::alloc::Global;
use stores::MAX_SWITCHES;

// The output so far, and what the lines read so far leave.
#[derive(Drop)]
struct Run<'a> {
    output: Vec<u8>,
    shape: Shape<'a>,
    state: State,
}

impl<'a> Run<'a> {
    // Reads a line, writes it where it is kept, and goes on to the state behind it.
    fn write_line(&mut self, line: &SourceLine<'a>) -> Result<(), PreprocessingFault>
        ensures { LineWritten line.now self.old self.new result }
    {
        let read = read_line(&mut self.shape, line)?;
        if self.state.keeps(&read) {
            self.output.extend_from_slice(line.text)?;
        }
        self.state.step(&read, self.shape.names());
        Ok(())
    }

    // Writes all lines, where none was read before.
    fn write_lines(&mut self, source: &'a [u8]) -> Result<(), PreprocessingFault>
        ensures { Writes source.now self.old self.new result }
    {
        for line in SourceLines::new(source) {
            self.write_line(&line)?;
        }
        Ok(())
    }
}

// What the configuration keeps of the source, where the names are the switches', in order.
pub fn preprocess<'a>(
    heap: Global,
    names: &[&'a [u8]],
    configuration: u32,
    source: &'a [u8],
) -> Result<Vec<u8>, PreprocessingFault>
    ensures { Preprocesses (texts names.now) configuration source.now result }
{
    if names.len() > MAX_SWITCHES {
        return Err(PreprocessingFault::TooManySwitches);
    }
    if !all_distinct(names) {
        return Err(PreprocessingFault::Names);
    }
    if configuration >= 1u32 << names.len() {
        return Err(PreprocessingFault::NoConfiguration);
    }
    check_size(source)?;
    let shape = Shape::new(names).ok_or(PreprocessingFault::TooManySwitches)?;
    let mut run = Run {
        output: Vec::new(heap),
        shape,
        state: State::new(names.len(), configuration),
    };
    run.write_lines(source)?;
    Ok(run.output)
}
