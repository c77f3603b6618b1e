// How a switch stands among the allowed configurations.
ghost use Rattle.std.specs.Prelude.{Some};
ghost use Rattle.standing.specs.Shown.{standing_text};

use std::fmt;

#[derive(Clone, Copy, PartialEq, Eq, Debug)]
pub enum Standing {
    // some have it on, some off
    Free,
    // all have it on
    On,
    // none has it on
    Off,
}

impl fmt::Display for Standing {
    ghost output = { λ s. Some (standing_text s) };

    fn fmt<W: fmt::Write>(&self, f: &mut fmt::Formatter<W>) -> fmt::Result {
        match self {
            Standing::Free => f.write_str("free"),
            Standing::On => f.write_str("on"),
            Standing::Off => f.write_str("off"),
        }
    }
}
