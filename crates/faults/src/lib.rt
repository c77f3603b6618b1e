// What every refusal says, whatever layer it comes from. Uses nothing; every other crate may use it.
#![tactic(auto)]

ghost use Rattle.std.specs.Prelude.{Some};
ghost use Rattle.faults.specs.Shown.{layer_text, refusal_text};

use std::fmt;

// The layer that refuses.
#[derive(Clone, Copy, PartialEq, Eq, Debug)]
pub enum Layer {
    Store,
    Session,
    Rules,
    Lines,
    Expression,
    Conditionals,
}

// A refusal as it is printed: its number, its layer, and its place, a line and a byte counted from 1; 0 where it has none.
#[derive(Clone, Copy, PartialEq, Eq, Debug)]
pub struct Refusal {
    pub number: u32,
    pub layer: Layer,
    pub line: usize,
    pub byte: usize,
}

impl fmt::Display for Layer {
    ghost output = { λ l. Some (layer_text l) };

    fn fmt<W: fmt::Write>(&self, f: &mut fmt::Formatter<W>) -> fmt::Result {
        match self {
            Layer::Store => f.write_str("store"),
            Layer::Session => f.write_str("session"),
            Layer::Rules => f.write_str("rules"),
            Layer::Lines => f.write_str("lines"),
            Layer::Expression => f.write_str("expression"),
            Layer::Conditionals => f.write_str("conditionals"),
        }
    }
}

impl fmt::Display for Refusal {
    ghost output = { λ r. Some (refusal_text r) };

    fn fmt<W: fmt::Write>(&self, f: &mut fmt::Formatter<W>) -> fmt::Result {
        let number = self.number;
        let layer = self.layer;
        let line = self.line;
        let byte = self.byte;
        write!(f, "refused {number} {layer} line {line} byte {byte}")
    }
}
