// Why a store refuses, by rising number, which the format gives.
ghost use Rattle.std.specs.Prelude.{◌≡◌};
ghost use Rattle.stores.specs.Faults.{described};

use faults::{Layer, Refusal};

#[derive(Clone, Copy, PartialEq, Eq, Debug)]
pub enum StoreFault {
    // the switch is not one of the store's
    NoSwitch = 1,
    // no set is held under the number
    NoNumber = 2,
    // the operation needs more places than are free
    Full = 3,
    // the configuration is 2^n or above
    NoConfiguration = 4,
    // the memory handed in holds fewer than two sets
    TooSmall = 6,
    // more switches than this sort of store admits
    TooManySwitches = 7,
}

impl StoreFault {
    // The refusal while line `line` is being read, 0 outside the lines: only a full store names it. No From, since it takes the line.
    pub fn refusal(self, line: usize) -> Refusal
        ensures { result ≡ described self line }
    {
        let line = match self {
            StoreFault::Full => line,
            _ => 0,
        };
        Refusal {
            number: self as u32,
            layer: Layer::Store,
            line,
            byte: 0,
        }
    }
}
