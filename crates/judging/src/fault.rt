// Why a rule text is not judged.
ghost use Rattle.std.specs.Prelude.{◌≡◌};
ghost use Rattle.judging.specs.Faults.{described};
ghost use Rattle.judging.specs.declared.fault.JudgingFault.TheVariants.{Rules, Store, Layer, OutOfMemory};
ghost use Rattle.judging.specs.Faults.{of_declarations};

use faults::Refusal;
use layers::fault::LayerFault;
use rulelines::declaration::DeclarationFault;
use rulelines::fault::RuleFault;
use std::alloc::{AllocError, AllocFailed};
use stores::fault::StoreFault;

#[derive(Clone, Copy, PartialEq, Eq, Debug)]
pub enum JudgingFault {
    Rules(RuleFault),
    Store(StoreFault),
    Layer(LayerFault),
    OutOfMemory,
}

impl JudgingFault {
    // The refusal, if it is one: want of memory says nothing of the text. So it is no From.
    pub fn refusal(self) -> Option<Refusal>
        ensures { result ≡ described self }
    {
        match self {
            JudgingFault::Rules(fault) => Some(fault.into()),
            JudgingFault::Store(fault) => Some(fault.refusal(0)),
            JudgingFault::Layer(fault) => Some(fault.into()),
            JudgingFault::OutOfMemory => None,
        }
    }
}

impl From<RuleFault> for JudgingFault {
    ghost from_gives = { λ f r. r ≡ Rules f };

    fn from(f: RuleFault) -> JudgingFault {
        JudgingFault::Rules(f)
    }
}

impl From<StoreFault> for JudgingFault {
    ghost from_gives = { λ f r. r ≡ Store f };

    fn from(f: StoreFault) -> JudgingFault {
        JudgingFault::Store(f)
    }
}

impl From<LayerFault> for JudgingFault {
    ghost from_gives = { λ f r. r ≡ Layer f };

    fn from(f: LayerFault) -> JudgingFault {
        JudgingFault::Layer(f)
    }
}

impl From<DeclarationFault> for JudgingFault {
    ghost from_gives = { λ f r. r ≡ of_declarations f };

    fn from(f: DeclarationFault) -> JudgingFault {
        match f {
            DeclarationFault::Rules(fault) => JudgingFault::Rules(fault),
            DeclarationFault::OutOfMemory => JudgingFault::OutOfMemory,
        }
    }
}

impl From<AllocError> for JudgingFault {
    ghost from_gives = { λ _ r. r ≡ OutOfMemory };

    fn from(_e: AllocError) -> JudgingFault {
        JudgingFault::OutOfMemory
    }
}

impl<T: Drop> From<AllocFailed<T>> for JudgingFault {
    ghost from_gives = { λ _ r. r ≡ OutOfMemory };

    fn from(_e: AllocFailed<T>) -> JudgingFault {
        Self::OutOfMemory
    }
}
