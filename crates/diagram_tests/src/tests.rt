use diagrams::Diagrams;
use std::test::Fail;
use stores::Store;
use stores::fault::StoreFault;
use stores::in_words::InWords;

#[test]
fn two_cells(rt: HostRuntime) -> Result<(), Fail> {
    let mut words = [9; 1_099];
    Diagrams::prepare(&mut words, 24)?;
    assert!(rt; words[0] == 24 && words[1] == 2 && words[2] == 0 && words[1_089] == 0);
    assert!(rt; words[1_090] == 32 && words[1_091] == 0 && words[1_092] == 0 && words[1_093] == 0);
    assert!(rt; words[1_094] == 32 && words[1_095] == 1 && words[1_096] == 1 && words[1_097] == 0);
    assert!(rt; words[1_098] == 9);
    Ok(())
}

// As over bitmaps. One function for both would have as many lines as the two.
#[test]
fn too_many_switches(rt: HostRuntime) {
    let mut words = [9; 1];
    assert_eq!(rt;
        Diagrams::prepare(&mut words, 25),
        Err(StoreFault::TooManySwitches)
    );
    assert_eq!(rt; words, [9]);
}

#[test]
fn one_word_short(rt: HostRuntime) {
    let mut words = [9; 1_097];
    assert_eq!(rt;
        Diagrams::prepare(&mut words, 24),
        Err(StoreFault::TooSmall)
    );
    assert!(rt; words[0] == 9 && words[1_096] == 9);
}

#[test]
fn one_set_has_one_number(rt: HostRuntime) -> Result<(), Fail> {
    let mut words = [9; 1_110];
    let mut store = Diagrams::make(&mut words, 2)?;
    let on = store.switch(1)?;
    let off = store.less(1, on)?;
    let both = store.both(on, off);
    let either = store.either(on, off);
    let again = store.less(1, off);
    let lowest = store.find(on);
    drop(store);
    assert_eq!(rt; both, Ok(0));
    assert_eq!(rt; either, Ok(1));
    assert_eq!(rt; again, Ok(2));
    assert_eq!(rt; lowest, Ok(Some(2)));
    assert!(rt; words[1] == 4 && words[1_098] == 1 && words[1_099] == 0 && words[1_100] == 1);
    assert!(rt; words[1_102] == 1 && words[1_103] == 1 && words[1_104] == 0 && words[1_106] == 0);
    Ok(())
}

#[test]
fn full_store_refuses(rt: HostRuntime) -> Result<(), Fail> {
    let mut words = [9; 1_106];
    let mut store = Diagrams::make(&mut words, 2)?;
    let high = store.switch(1)?;
    let low = store.switch(0)?;
    let refused = store.both(high, low);
    let held = store.len();
    drop(store);
    assert_eq!(rt; refused, Err(StoreFault::Full));
    assert_eq!(rt; held, 4);
    assert!(rt; words[66] == 0 && words[1_089] == 0);
    Ok(())
}

#[test]
fn release_zeroes(rt: HostRuntime) -> Result<(), Fail> {
    let mut words = [9; 1_106];
    let mut store = Diagrams::make(&mut words, 2)?;
    let on = store.switch(1)?;
    let mark = store.mark();
    let made = store.less(1, on);
    store.release(mark);
    drop(store);
    assert_eq!(rt; made, Ok(3));
    assert!(rt; words[1] == 3 && words[1_102] == 0 && words[1_103] == 0 && words[1_105] == 0);
    assert!(rt; words[2 + (1 + 3) % 64] == 0);
    Ok(())
}
