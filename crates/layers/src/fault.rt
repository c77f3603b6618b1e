// Why a rule layer is not made.
ghost use Rattle.std.specs.Prelude.{◌≡◌};
ghost use Rattle.layers.specs.declared.fault.LayerFault.TheVariants.{Store};

use faults::{Layer, Refusal};
use stores::fault::StoreFault;

#[derive(Clone, Copy, PartialEq, Eq, Debug)]
pub enum LayerFault {
    // the store below refuses an operation
    Store(StoreFault),
    // the rules leave no configuration
    NoneAllowed,
}

impl From<StoreFault> for LayerFault {
    ghost from_gives = { λ f r. r ≡ Store f };

    fn from(fault: StoreFault) -> LayerFault {
        LayerFault::Store(fault)
    }
}

// A layer is made outside the lines, so no refusal names one. `NoneAllowed` stands beside a case with a field, so its number stands here.
impl From<LayerFault> for Refusal {
    ghost use Rattle.layers.specs.Faults.{described};

    ghost from_gives = { λ f r. r ≡ described f };

    fn from(fault: LayerFault) -> Refusal {
        match fault {
            LayerFault::Store(f) => f.refusal(0),
            LayerFault::NoneAllowed => Refusal {
                number: 5,
                layer: Layer::Rules,
                line: 0,
                byte: 0,
            },
        }
    }
}
