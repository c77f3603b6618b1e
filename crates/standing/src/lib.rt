// Whether the allowed configurations of a store leave a switch free. May use `stores`.
#![tactic(auto)]

ghost use Rattle.std.specs.Prelude.{◌≡◌, ℕ, ◌<◌, IfOk};
ghost use Rattle.stores.specs.Model.{set_at};
ghost use Rattle.stores.specs.Outcome.{Advanced};
ghost use Rattle.stores.specs.Steps.{Runs};
ghost use Rattle.standing.specs.Standing.{Stands, asking, StandingOutcome};

pub mod verdict;

use stores::Store;
use stores::fault::StoreFault;
use verdict::Standing;

fn judge<S: Store>(store: &mut S, top: u32, i: u32) -> Result<Standing, StoreFault>
    ensures advanced { Advanced S.model S.rollback store.old store.new }
    ensures runs { Runs S.model S.rollback S.need (asking top i) store.old store.new result }
{
    let with = store.switch(i)?;
    if store.find(with)?.is_none() {
        return Ok(Standing::Off);
    }
    let without = store.less(top, with)?;
    if store.find(without)?.is_none() {
        return Ok(Standing::On);
    }
    Ok(Standing::Free)
}

// How switch `i` stands. The store is as before, whether answered or refused.
pub fn standing<S: Store>(store: &mut S, i: u32) -> Result<Standing, StoreFault>
    ensures same { store.new ≡ store.old }
    ensures stands { IfOk result (Stands (S.model store.old).allowed i) }
    ensures asked { (top : ℕ) × (top < (S.model store.old).floor) × (set_at (S.model store.old) top ≡ (S.model store.old).allowed) × StandingOutcome S.model S.rollback S.need top i store.old result }
{
    let top = store.top();
    let mark = store.mark();
    let answer = judge(store, top, i);
    store.release(mark);
    answer
}
