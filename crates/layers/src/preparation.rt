// Preparing: working out, in a store, the sets that a rule layer over it answers with.
ghost use Rattle.layers.specs.Preparing.{WorksOut, Attempts, Prepares};

use crate::fault::LayerFault;
use stores::{MAX_SWITCHES, Store};

// The number of what the rules allow, that of those with each switch on, and how many sets were held then.
#[derive(Clone, Copy)]
pub struct Prepared {
    pub top: u32,
    pub floor: u32,
    pub switches: [u32; MAX_SWITCHES],
}

// Holds no mark, so `?` may leave it; what was appended before a refusal is then still held.
fn work_out<S: Store>(store: &mut S, all: u32, a: u32) -> Result<Prepared, LayerFault>
    ensures { WorksOut S.model S.rollback S.need store.old store.new all a result }
{
    let top = store.both(all, a)?;
    if store.find(top)?.is_none() {
        return Err(LayerFault::NoneAllowed);
    }
    let mut switches = [0; MAX_SWITCHES];
    for i in 0..store.switches() {
        let x = store.switch(i)?;
        switches[i as usize] = store.both(top, x)?;
    }
    let floor = store.len();
    Ok(Prepared {
        top,
        floor,
        switches,
    })
}

// Prepares a layer over `store` whose rules allow set `a`. Refused, the store is as it was.
pub fn prepare<S: Store>(store: &mut S, a: u32) -> Result<Prepared, LayerFault>
    ensures attempts { Attempts S.model S.rollback S.need store.old store.new a result }
    ensures prepares { Prepares S.model S.rollback store.old store.new a result }
{
    let mark = store.mark();
    let all = store.top();
    match work_out(store, all, a) {
        Ok(prepared) => {
            store.keep(mark);
            Ok(prepared)
        }
        Err(fault) => {
            store.release(mark);
            Err(fault)
        }
    }
}
