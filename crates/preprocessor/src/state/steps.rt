// The state before the first line, and what a line does to it.
ghost use Rattle.std.specs.Prelude.{◌≡◌, ◌<◌, List, [], ◌∷◌, length, if◌then◌else◌};
ghost use Rattle.text.specs.Tokens.{Bytes};
ghost use Rattle.names.specs.Names.{texts, index_of};
ghost use Rattle.sources.specs.Classified.{Line as Defined, raw_of};
ghost use Rattle.sources.specs.Answers.{shown, seen};
ghost use Rattle.preprocessor.specs.Plain.{State as PlainState, active as active_in, step as stepped, popped, kept, defined_in, began};
ghost use Rattle.preprocessor.specs.Represented.{chains_of, Represents, Ready, marked, entered, continued};

use crate::state::{Frame, MAX_NAMES, State};
use arrayvec::ArrayVec;
use names::index_of;
use sources::line::Line;
use truth::holds;

// A configuration is a number of so many bits, one for each switch.
const CONFIGURATION_BITS: usize = 32;

impl State {
    // Before the first line: the switches that are on in `configuration` are defined. Bit i of the number is switch i.
    pub fn new(switches: usize, configuration: u32) -> State
        ensures { (ns : List Bytes) → length ns ≡ switches → Represents ns result (began (defined_in ns configuration)) }
    {
        let mut flags = [false; MAX_NAMES];
        for i in 0..switches.min(CONFIGURATION_BITS) {
            flags[i] = (configuration >> i) % 2 == 1;
        }
        State {
            flags,
            chains: ArrayVec::new(),
        }
    }

    // Are the lines of the innermost block active?
    pub fn is_active(&self) -> bool
        ensures { result ≡ active_in (chains_of self.now) }
    {
        self.chains.last().is_none_or(|chain| chain.active)
    }

    // Does `line` stand in the output? It does where it is active and not conditional.
    pub fn keeps(&self, line: &Line<'_>) -> bool
        ensures { (σ : PlainState) (x : Defined) → chains_of self.now ≡ σ.stack → shown line.now ≡ seen x → kept σ x ≡ (if result then raw_of x ∷ [] else []) }
    {
        match line {
            Line::Plain | Line::Define(_) | Line::Undef(_) => self.is_active(),
            Line::If(_) | Line::Elif(_) | Line::Else | Line::Endif => false,
        }
    }

    // `define` or `undef` of `name`, which acts only where active. Without an entry there is nothing to note.
    fn define(&mut self, names: &[&[u8]], name: &[u8], value: bool)
        ensures flags { self.new.flags ≡ (if active_in (chains_of self.old) then marked (index_of (texts names.now) name.now) value self.old.flags else self.old.flags) }
        ensures chains { chains_of self.new ≡ chains_of self.old }
    {
        if !self.is_active() {
            return;
        }
        if let Some(i) = index_of(names, name) {
            if i < MAX_NAMES {
                self.flags[i] = value;
            }
        }
    }

    // A chain opens with a block whose condition has the value `holds`. Where there is no room, nothing changes.
    fn enter(&mut self, holds: bool)
        ensures flags { self.new.flags ≡ self.old.flags }
        ensures chains { length self.old.chains.items < 32 → chains_of self.new ≡ entered holds (chains_of self.old) }
    {
        let chain = Frame::new(self.is_active(), holds);
        let _ = self.chains.try_push(chain);
    }

    // The next block of the innermost chain, which asks what has the value `holds`. Outside a chain nothing changes.
    fn proceed(&mut self, holds: bool)
        ensures flags { self.new.flags ≡ self.old.flags }
        ensures chains { chains_of self.new ≡ continued holds (chains_of self.old) }
    {
        if let Some(chain) = self.chains.last_mut() {
            *chain = chain.next(holds);
        }
    }

    // The innermost chain ends.
    fn leave(&mut self)
        ensures flags { self.new.flags ≡ self.old.flags }
        ensures chains { chains_of self.new ≡ popped (chains_of self.old) }
    {
        let _ = self.chains.pop();
    }

    // What `line` does, where `names` are the names that have an entry behind it.
    pub fn step(&mut self, line: &Line<'_>, names: &[&[u8]])
        ensures { (σ : PlainState) (x : Defined) → shown line.now ≡ seen x → Ready (texts names.now) σ x → Represents (texts names.now) self.old σ → Represents (texts names.now) self.new (stepped σ x) }
    {
        match line {
            Line::Plain => {}
            Line::Define(name) => self.define(names, name, true),
            Line::Undef(name) => self.define(names, name, false),
            Line::If(condition) => {
                let value = holds(condition, names, &self.flags);
                self.enter(value);
            }
            Line::Elif(condition) => {
                let value = holds(condition, names, &self.flags);
                self.proceed(value);
            }
            Line::Else => self.proceed(true),
            Line::Endif => self.leave(),
        }
    }
}
