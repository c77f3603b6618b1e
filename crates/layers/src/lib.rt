// Rule layers: a store seen through rules is itself a store, so layers pile.
// May use `faults` and `stores`. Promises: over every store, what making a layer asks, answers and refuses, and of the layer all that a store promises.
#![tactic(auto)]

ghost use Rattle.layers.specs.Fitting.{Fits};

pub mod fault;
pub mod preparation;

use fault::LayerFault;
use preparation::Prepared;
use stores::Store;
use stores::connective::Connective;
use stores::fault::StoreFault;

// A store below, seen through rules: only what they allow is allowed, and what was prepared for them cannot be released.
#[derive(Drop)]
pub struct Layer<S: Store> {
    below: S,
    prepared: Prepared,
    ghost fits: { Fits (S.model below) prepared },
}

// Why no layer was made, with the store as it was handed in.
#[derive(Drop)]
pub struct MakeError<S> {
    pub store: S,
    pub fault: LayerFault,
}

impl<S: Store> Layer<S> {
    ghost use Rattle.std.specs.Prelude.{◌≡◌};
    ghost use Rattle.layers.specs.Making.{MakeAttempts, Makes};

    // A layer over `store`, which allows those of the store's allowed configurations that are in its set `a`.
    pub fn make(mut store: S, a: u32) -> Result<Layer<S>, MakeError<S>>
        ensures attempts { MakeAttempts store a result }
        ensures makes { Makes store a result }
    {
        match preparation::prepare(&mut store, a) {
            Ok(prepared) => Ok(Layer::over(store, prepared)),
            Err(fault) => Err(MakeError { store, fault }),
        }
    }

    // Cannot fail, since the store is still as preparing left it.
    pub(crate) fn over(store: S, prepared: Prepared) -> Layer<S>
        requires { Fits (S.model store) prepared }
        ensures below { result.below ≡ store }
        ensures prepared { result.prepared ≡ prepared }
    {
        Layer {
            below: store,
            prepared,
        }
    }

    // A second layer over this one, from a set `a` of this one's.
    pub fn pile(self, a: u32) -> Result<Layer<Layer<S>>, MakeError<Layer<S>>>
        ensures attempts { MakeAttempts self a result }
        ensures makes { Makes self a result }
    {
        Layer::make(self, a)
    }

    // The store below.
    pub fn below(&self) -> &S
        ensures { result.now ≡ self.now.below }
    {
        &self.below
    }

    // The store below again, without the rules. What was prepared for them is still held there.
    pub fn into_below(self) -> S
        ensures { result ≡ self.below }
    {
        let Layer { below, prepared: _ } = self;
        below
    }
}

impl<S: Store> Store for Layer<S> {
    ghost use Rattle.std.specs.Prelude.{◌^◌};
    ghost use Rattle.layers.specs.Layered.{layer_model, layer_need, layer_rollback};
    ghost use Rattle.layers.specs.Laws.{over_consistent, needs_bounded, layer_rollback_laws};

    ghost model = { λ l. layer_model l };

    ghost need = { λ l op. layer_need l op };

    ghost consistent = { λ l. over_consistent (S.consistent l.below) l.fits };

    ghost need_bound = { λ l. needs_bounded (2 ^ (S.model l.below).n) (S.need l.below) (S.need_bound l.below) };

    ghost rollback = { layer_rollback };

    ghost rollback_laws = { layer_rollback_laws };

    fn none(&self) -> u32 {
        self.below.none()
    }

    fn top(&self) -> u32 {
        self.prepared.top
    }

    fn switches(&self) -> u32 {
        self.below.switches()
    }

    fn len(&self) -> u32 {
        self.below.len()
    }

    fn switch(&mut self, i: u32) -> Result<u32, StoreFault> {
        if i >= self.switches() {
            return Err(StoreFault::NoSwitch);
        }
        Ok(self.prepared.switches[i as usize])
    }

    fn join(&mut self, how: Connective, a: u32, b: u32) -> Result<u32, StoreFault> {
        self.below.join(how, a, b)
    }

    fn holds(&self, a: u32, k: u32) -> Result<bool, StoreFault> {
        self.below.holds(a, k)
    }

    fn find(&self, a: u32) -> Result<Option<u32>, StoreFault> {
        self.below.find(a)
    }

    fn cut(&mut self, to: u32) {
        self.below.cut(to.max(self.prepared.floor));
    }
}
