use bitmaps::Bitmaps;
use std::test::Fail;
use stores::Store;
use stores::fault::StoreFault;
use stores::in_words::InWords;

#[test]
fn no_switches(rt: HostRuntime) -> Result<(), Fail> {
    let mut words = [9; 5];
    Bitmaps::prepare(&mut words, 0)?;
    assert_eq!(rt; words, [0, 2, 0, 1, 0]);
    Ok(())
}

#[test]
fn most_switches(rt: HostRuntime) -> Result<(), Fail> {
    let mut words = [9; 35];
    Bitmaps::prepare(&mut words, 10)?;
    assert!(rt; words[0] == 10 && words[1] == 2 && words[2] == 0 && words[17] == 0);
    assert!(rt; words[18] == u64::MAX && words[33] == u64::MAX && words[34] == 9);
    Ok(())
}

// As over diagrams. One function for both would have as many lines as the two.
#[test]
fn too_many_switches(rt: HostRuntime) {
    let mut words = [9; 1];
    assert_eq!(rt;
        Bitmaps::prepare(&mut words, 11),
        Err(StoreFault::TooManySwitches)
    );
    assert_eq!(rt; words, [9]);
}

#[test]
fn one_word_short(rt: HostRuntime) {
    let mut words = [9; 33];
    assert_eq!(rt; Bitmaps::prepare(&mut words, 10), Err(StoreFault::TooSmall));
    assert_eq!(rt; words, [9; 33]);
}

#[test]
fn full_store_refuses(rt: HostRuntime) -> Result<(), Fail> {
    let mut words = [9; 5];
    let mut store = Bitmaps::make(&mut words, 2)?;
    let on = store.switch(1)?;
    let refused = store.both(on, on);
    drop(store);
    assert_eq!(rt; refused, Err(StoreFault::Full));
    assert_eq!(rt; words, [2, 3, 0, 0b1111, 0b1100]);
    Ok(())
}

#[test]
fn release_zeroes(rt: HostRuntime) -> Result<(), Fail> {
    let mut words = [9; 6];
    let mut store = Bitmaps::make(&mut words, 2)?;
    let on = store.switch(0)?;
    let mark = store.mark();
    let made = store.less(1, on);
    store.release(mark);
    drop(store);
    assert_eq!(rt; made, Ok(3));
    assert_eq!(rt; words, [2, 3, 0, 0b1111, 0b1010, 0]);
    Ok(())
}

#[test]
fn two_words_a_slot(rt: HostRuntime) -> Result<(), Fail> {
    let mut words = [9; 14];
    let mut store = Bitmaps::make(&mut words, 7)?;
    let last = store.switch(6)?;
    let first = store.switch(0)?;
    let both = store.both(last, first)?;
    let rest = store.less(both, first)?;
    assert_eq!(rt; store.find(both), Ok(Some(65)));
    assert_eq!(rt; store.find(rest), Ok(None));
    assert_eq!(rt; store.holds(last, 63), Ok(false));
    assert_eq!(rt; store.holds(last, 127), Ok(true));
    assert_eq!(rt; store.holds(last, 128), Err(StoreFault::NoConfiguration));
    assert_eq!(rt; store.holds(6, 0), Err(StoreFault::NoNumber));
    Ok(())
}
