// Why a source is not preprocessed.
ghost use Rattle.std.specs.Prelude.{◌≡◌};
ghost use Rattle.sources.specs.declared.fault.SourceFault.TheVariants.{Lines};
ghost use Rattle.preprocessing.specs.Faults.{described};
ghost use Rattle.preprocessing.specs.declared.fault.PreprocessingFault.TheVariants.{Source, OutOfMemory};

use faults::{Layer, Refusal};
use sources::fault::{LineFault, SourceFault};
use std::alloc::AllocError;
use stores::fault::StoreFault;

#[derive(Clone, Copy)]
pub enum PreprocessingFault {
    // more switches than there may be
    TooManySwitches,
    // two switches have one name
    Names,
    // the configuration is 2^n or above
    NoConfiguration,
    Source(SourceFault),
    // no refusal: there is no memory for the output
    OutOfMemory,
}

impl PreprocessingFault {
    // The refusal, if it is one: want of memory says nothing of the source. So it is no From.
    // `Names` and `NoConfiguration` stand beside a case with a field, so their numbers stand here.
    pub fn refusal(self) -> Option<Refusal>
        ensures { result ≡ described self }
    {
        let number = match self {
            PreprocessingFault::TooManySwitches => {
                return Some(StoreFault::TooManySwitches.refusal(0));
            }
            PreprocessingFault::Source(fault) => return Some(fault.into()),
            PreprocessingFault::OutOfMemory => return None,
            PreprocessingFault::Names => 23,
            PreprocessingFault::NoConfiguration => 4,
        };
        Some(Refusal {
            number,
            layer: Layer::Session,
            line: 0,
            byte: 0,
        })
    }
}

impl From<SourceFault> for PreprocessingFault {
    ghost from_gives = { λ f r. r ≡ Source f };

    fn from(fault: SourceFault) -> PreprocessingFault {
        Self::Source(fault)
    }
}

impl From<LineFault> for PreprocessingFault {
    ghost from_gives = { λ f r. r ≡ Source (Lines f) };

    fn from(fault: LineFault) -> PreprocessingFault {
        Self::Source(fault.into())
    }
}

impl From<AllocError> for PreprocessingFault {
    ghost from_gives = { λ _ r. r ≡ OutOfMemory };

    fn from(_e: AllocError) -> PreprocessingFault {
        Self::OutOfMemory
    }
}
