// Random lists of operations on small diagram stores, against truth tables that are worked out by trying every configuration.
use diagrams::Diagrams;
use dice::Dice;
use std::alloc::Global;
use std::array;
use std::process::Abort;
use std::test::Fail;
use stores::connective::Connective;
use stores::fault::StoreFault;
use stores::in_words::InWords;
use stores::{Mark, Store};

const MOST_SWITCHES: u32 = 10;

const TABLE_WORDS: usize = 16;

// How many lists are tried for each number of switches, and how many acts a list has.
const LISTS: u32 = 40;

const ACTS: u32 = 60;

// A set of configurations: bit k % 64 of word k / 64 says whether k is in it.
type Table = [u64; TABLE_WORDS];

fn configurations(n: u32) -> u32 {
    1 << n.min(MOST_SWITCHES)
}

fn has(table: &Table, k: u32) -> bool {
    table[(k as usize / 64) % TABLE_WORDS] >> (k % 64) & 1 == 1
}

fn add(table: &mut Table, k: u32) {
    table[(k as usize / 64) % TABLE_WORDS] |= 1 << (k % 64);
}

// The configurations of n switches that pass a test.
fn those<F: Fn(u32) -> bool>(n: u32, test: F) -> Table
    requires { F.IsAlwaysCallable test }
{
    let mut table = [0; TABLE_WORDS];
    for k in 0..configurations(n) {
        if test(k) {
            add(&mut table, k);
        }
    }
    table
}

// The set whose test of a configuration is the table's with switch `i` put on or off.
fn fixed(table: &Table, n: u32, i: u32, on: bool) -> Table {
    let switch = 1u32 << i.min(31);
    those(n, |k| has(table, if on { k | switch } else { k & !switch }))
}

fn with_switch(n: u32, i: u32) -> Table {
    those(n, |k| (k >> i.min(31)) & 1 == 1)
}

fn lowest(table: &Table) -> Option<u32> {
    (0..configurations(MOST_SWITCHES)).find(|k| has(table, *k))
}

fn place_of(tables: &[Table], table: &Table) -> Option<usize> {
    tables.iter().position(|other| other == table)
}

// Adds a table that is not there yet.
fn put(tables: &mut Vec<Table>, table: Table) -> Result<(), Fail> {
    if place_of(tables.as_slice(), &table).is_none() {
        tables.push(table)?;
    }
    Ok(())
}

// The sides at switch `i` of the sets of a level. Those that ask the switch and are not held are missing.
fn sides(
    heap: Global,
    n: u32,
    i: u32,
    level: &[Table],
    held: &[Table],
    missing: &mut Vec<Table>,
) -> Result<Vec<Table>, Fail> {
    let mut next = Vec::new(heap);
    for table in level {
        let low = fixed(table, n, i, false);
        let high = fixed(table, n, i, true);
        if low != high && place_of(held, table).is_none() {
            missing.push(*table)?;
        }
        put(&mut next, low)?;
        put(&mut next, high)?;
    }
    Ok(next)
}

// The sets that the reduced diagram of a set has a cell for and that are not held, from the highest switch down.
fn lacking(heap: Global, n: u32, held: &[Table], set: Table) -> Result<Vec<Table>, Fail> {
    let mut missing = Vec::new(heap);
    let mut level = vec![in heap; set]?;
    for i in (0..n).rev() {
        level = sides(heap, n, i, level.as_slice(), held, &mut missing)?;
    }
    Ok(missing)
}

// Data and no closures: a list of acts is drawn once, and done again on a new store.
#[derive(Clone, Copy)]
enum Act {
    Switch(u32),
    Join(Connective, u32, u32),
    Mark,
    // the newest open mark
    Release,
    // the older mark first, then the newer one, which is then above the length
    ReleaseBoth,
    Keep,
}

fn joined(connective: Connective, a: &Table, b: &Table) -> Table {
    array::from_fn(|i| match connective {
        Connective::Both => a[i] & b[i],
        Connective::Either => a[i] | b[i],
        Connective::Less => a[i] & !b[i],
    })
}

// The open marks: the newer one is open only if the older one is.
#[derive(Default)]
struct Marks {
    older: Option<Mark>,
    newer: Option<Mark>,
}

// A mark can be neither copied nor dropped, so no closure takes it for both of the next two.
fn release<S: Store>(store: &mut S, mark: Option<Mark>) {
    if let Some(mark) = mark {
        store.release(mark);
    }
}

fn keep<S: Store>(store: &mut S, mark: Option<Mark>) {
    if let Some(mark) = mark {
        store.keep(mark);
    }
}

fn open<S: Store>(store: &S, marks: Marks) -> Marks {
    let Marks { older, newer } = marks;
    match (older, newer) {
        (None, newer) => Marks {
            older: Some(store.mark()),
            newer,
        },
        (older, None) => Marks {
            older,
            newer: Some(store.mark()),
        },
        (older, newer) => Marks { older, newer },
    }
}

// The newest open mark, and the marks without it.
fn newest(marks: Marks) -> (Option<Mark>, Marks) {
    let Marks { older, newer } = marks;
    match newer {
        Some(mark) => (Some(mark), Marks { older, newer: None }),
        None => (older, Marks::default()),
    }
}

fn change_marks<S: Store>(store: &mut S, marks: Marks, act: Act) -> Marks {
    match act {
        Act::Mark => open(store, marks),
        Act::Release => {
            let (mark, left) = newest(marks);
            release(store, mark);
            left
        }
        Act::Keep => {
            let (mark, left) = newest(marks);
            keep(store, mark);
            left
        }
        Act::ReleaseBoth => {
            let Marks { older, newer } = marks;
            release(store, older);
            release(store, newer);
            Marks::default()
        }
        _ => marks,
    }
}

// What the store answers to an operation; a change of marks has no answer.
fn ask<S: Store>(store: &mut S, act: Act) -> Option<Result<u32, StoreFault>> {
    match act {
        Act::Switch(i) => Some(store.switch(i)),
        Act::Join(connective, a, b) => Some(store.join(connective, a, b)),
        _ => None,
    }
}

// The answer to the last act, after all before it.
fn replay<S: Store>(store: &mut S, acts: &[Act]) -> Option<Result<u32, StoreFault>> {
    let mut answer = None;
    let mut marks = Marks::default();
    for act in acts {
        answer = ask(store, *act);
        marks = change_marks(store, marks, *act);
    }
    let Marks { older, newer } = marks;
    keep(store, newer);
    keep(store, older);
    answer
}

// A number that is held, most often a late one; now and then one that is not held.
fn number(dice: &mut Dice, held: u32) -> u32 {
    match dice.roll(16) {
        0 => held.saturating_add(dice.roll(3)),
        1..=4 => dice.roll(held),
        _ => held
            .saturating_sub(1)
            .saturating_sub(dice.roll(held.min(12))),
    }
}

// Room for few cells or for some dozens.
fn room(dice: &mut Dice) -> u32 {
    dice.roll(20)
        .saturating_add(dice.roll(60))
        .saturating_add(2)
}

fn connective(dice: &mut Dice) -> Connective {
    match dice.roll(3) {
        0 => Connective::Both,
        1 => Connective::Either,
        _ => Connective::Less,
    }
}

fn any_act(dice: &mut Dice, n: u32, held: u32) -> Act {
    match dice.roll(20) {
        0..=3 => Act::Switch(dice.roll(n.saturating_add(1))),
        4 => Act::Mark,
        5 => Act::Release,
        6 => Act::ReleaseBoth,
        7 => Act::Keep,
        _ => Act::Join(connective(dice), number(dice, held), number(dice, held)),
    }
}

// How often each kind of outcome was met.
#[derive(Drop, Default)]
struct Tally {
    cases: u32,
    grown: u32,
    found: u32,
    no_switch: u32,
    no_number: u32,
    full: u32,
    released: u32,
}

fn count(place: &mut u32) {
    *place = place.saturating_add(1);
}

// How much was held when a mark was taken.
#[derive(Clone, Copy)]
struct Point {
    tables: usize,
    kept: usize,
}

// What the store should hold: the sets by number, and a list of operations that leads there with no refusal and no release.
#[derive(Drop)]
struct Model {
    n: u32,
    capacity: usize,
    tables: Vec<Table>,
    kept: Vec<Act>,
    older: Option<Point>,
    newer: Option<Point>,
}

impl Model {
    fn new(heap: Global, n: u32, capacity: usize) -> Result<Self, Fail> {
        Ok(Model {
            n,
            capacity,
            tables: vec![in heap; [0; TABLE_WORDS], those(n, |_| true)]?,
            kept: Vec::new(heap),
            older: None,
            newer: None,
        })
    }

    fn held(&self) -> u32 {
        u32::try_from(self.tables.len()).unwrap_or(u32::MAX)
    }

    fn table(&self, number: u32) -> Option<Table> {
        self.tables.get(number as usize).copied()
    }

    // Words for a store of such capacity.
    fn words(&self, heap: Global) -> Result<Vec<u32>, Fail> {
        Ok(vec![in heap; 9u32; 1_090 + 4 * self.capacity.min(1_000) + 3]?)
    }

    // The words that the kept operations leave.
    fn words_alone(&self, heap: Global) -> Result<Vec<u32>, Fail> {
        let mut words = self.words(heap)?;
        let mut store = Diagrams::make(words.as_mut_slice(), self.n)?;
        let _ = replay(&mut store, self.kept.as_slice());
        drop(store);
        Ok(words)
    }

    // The set that an operation should answer, or the refusal due to its arguments.
    fn result(&self, act: Act) -> Result<Table, StoreFault> {
        match act {
            Act::Switch(i) => {
                if i < self.n {
                    Ok(with_switch(self.n, i))
                } else {
                    Err(StoreFault::NoSwitch)
                }
            }
            Act::Join(connective, a, b) => match (self.table(a), self.table(b)) {
                (Some(a), Some(b)) => Ok(joined(connective, &a, &b)),
                _ => Err(StoreFault::NoNumber),
            },
            // a change of marks answers nothing, and is not asked for here
            _ => Ok([0; TABLE_WORDS]),
        }
    }

    fn point(&self) -> Point {
        Point {
            tables: self.tables.len(),
            kept: self.kept.len(),
        }
    }

    fn cut(&mut self, to: Option<Point>, tally: &mut Tally) {
        if let Some(point) = to {
            if point.tables < self.tables.len() {
                count(&mut tally.released);
            }
            self.tables.truncate(point.tables);
            self.kept.truncate(point.kept);
        }
    }

    fn change_marks(&mut self, act: Act, tally: &mut Tally) {
        let (older, newer) = (self.older, self.newer);
        match act {
            Act::Mark => {
                if older.is_none() {
                    self.older = Some(self.point());
                } else if newer.is_none() {
                    self.newer = Some(self.point());
                }
            }
            Act::ReleaseBoth => {
                self.cut(older, tally);
                (self.older, self.newer) = (None, None);
            }
            _ => {
                let newest = newer.or(older);
                if newer.is_none() {
                    self.older = None;
                }
                self.newer = None;
                if matches!(act, Act::Release) {
                    self.cut(newest, tally);
                }
            }
        }
    }
}

// The set that a store holds under a number, asked configuration by configuration.
fn table_in<S: Store>(store: &S, number: u32) -> Result<Table, StoreFault> {
    let mut table = [0; TABLE_WORDS];
    for k in 0..configurations(store.switches()) {
        if store.holds(number, k)? {
            add(&mut table, k);
        }
    }
    Ok(table)
}

// A run of the lists: what it draws from, and what it has met.
#[derive(Drop)]
struct Run<'a, R: Abort> {
    rt: &'a R,
    heap: Global,
    dice: Dice,
    tally: Tally,
}

impl<R: Abort> Run<'_, R> {
    // The sets of the numbers from `from` on are exactly the missing ones. They are then held in the model too.
    fn check_new<S: Store>(
        &self,
        store: &S,
        model: &mut Model,
        missing: &[Table],
    ) -> Result<(), Fail> {
        let from = model.held();
        assert_eq!(self.rt;
            store.len() as usize,
            (from as usize).saturating_add(missing.len())
        );
        for number in from..store.len() {
            let table = table_in(store, number)?;
            assert!(self.rt; place_of(missing, &table).is_some());
            assert!(self.rt; place_of(model.tables.as_slice(), &table).is_none());
            model.tables.push(table)?;
        }
        Ok(())
    }

    // Some numbers, old and new, hold what they should; questions about what is not there are refused.
    fn check_questions<S: Store>(&mut self, store: &S, model: &Model) -> Result<(), Fail> {
        let held = model.held();
        assert_eq!(self.rt; store.len(), held);
        for _ in 0..3 {
            let number = self.dice.roll(held);
            let table = table_in(store, number)?;
            assert!(self.rt; model.table(number) == Some(table));
            assert_eq!(self.rt; store.find(number)?, lowest(&table));
        }
        let beyond = held.saturating_add(self.dice.roll(3));
        assert_eq!(self.rt; store.find(beyond), Err(StoreFault::NoNumber));
        assert_eq!(self.rt;
            store.holds(beyond, configurations(model.n)),
            Err(StoreFault::NoNumber)
        );
        assert_eq!(self.rt;
            store.holds(self.dice.roll(held), configurations(model.n)),
            Err(StoreFault::NoConfiguration)
        );
        Ok(())
    }

    // Checks an operation's answer, which is accepted exactly if the missing cells find room.
    fn check_answer<S: Store>(
        &mut self,
        store: &S,
        model: &mut Model,
        act: Act,
        answer: Result<u32, StoreFault>,
    ) -> Result<(), Fail> {
        let table = match model.result(act) {
            Ok(table) => table,
            Err(fault) => {
                if fault == StoreFault::NoSwitch {
                    count(&mut self.tally.no_switch);
                } else {
                    count(&mut self.tally.no_number);
                }
                assert_eq!(self.rt; answer, Err(fault));
                return Ok(());
            }
        };
        let missing = lacking(self.heap, model.n, model.tables.as_slice(), table)?;
        if missing.len() > model.capacity.saturating_sub(model.tables.len()) {
            count(&mut self.tally.full);
            assert_eq!(self.rt; answer, Err(StoreFault::Full));
            return Ok(());
        }
        if missing.is_empty() {
            count(&mut self.tally.found);
        } else {
            count(&mut self.tally.grown);
        }
        self.check_new(store, model, missing.as_slice())?;
        model.kept.push(act)?;
        assert_eq!(self.rt;
            place_of(model.tables.as_slice(), &table),
            Some(answer? as usize)
        );
        Ok(())
    }

    fn check_act<S: Store>(
        &mut self,
        store: &S,
        model: &mut Model,
        act: Act,
        answer: Option<Result<u32, StoreFault>>,
    ) -> Result<(), Fail> {
        match answer {
            Some(answer) => self.check_answer(store, model, act, answer),
            None => {
                model.change_marks(act, &mut self.tally);
                Ok(())
            }
        }
    }

    // Does the acts on a new store and checks what the last one leads to. The answer is the words that they leave.
    fn check_last(&mut self, model: &mut Model, acts: &[Act], last: Act) -> Result<Vec<u32>, Fail> {
        let mut words = model.words(self.heap)?;
        let mut store = Diagrams::make(words.as_mut_slice(), model.n)?;
        let answer = replay(&mut store, acts);
        self.check_act(&store, model, last, answer)?;
        self.check_questions(&store, model)?;
        drop(store);
        Ok(words)
    }

    // One list of acts. After each of them every word is as after the kept operations alone, so a refusal and a release leave no trace.
    fn check_list(&mut self, n: u32, capacity: u32) -> Result<(), Fail> {
        let mut model = Model::new(self.heap, n, capacity as usize)?;
        let mut acts = Vec::new(self.heap);
        for _ in 0..ACTS {
            let act = any_act(&mut self.dice, n, model.held());
            acts.push(act)?;
            let after = self.check_last(&mut model, acts.as_slice(), act)?;
            let alone = model.words_alone(self.heap)?;
            assert!(self.rt; after == alone);
        }
        count(&mut self.tally.cases);
        Ok(())
    }
}

fn report(rt: &HostRuntime, tally: &Tally) -> Result<(), Fail> {
    let (cases, grown, found) = (tally.cases, tally.grown, tally.found);
    println!(rt; "{cases} lists; accepted: {grown} with new cells, {found} with none")?;
    let (no_switch, no_number) = (tally.no_switch, tally.no_number);
    let (full, released) = (tally.full, tally.released);
    println!(rt; "refused: 1: {no_switch}, 2: {no_number}, 3: {full}; releases: {released}")?;
    Ok(())
}

#[test]
fn agrees_with_truth_tables(rt: HostRuntime) -> Result<(), Fail> {
    let mut run = Run {
        rt: &rt,
        heap: rt.alloc(),
        dice: Dice {
            state: 2_463_534_242,
        },
        tally: Tally::default(),
    };
    for n in 0..=MOST_SWITCHES {
        for _ in 0..LISTS {
            let capacity = room(&mut run.dice);
            run.check_list(n, capacity)?;
        }
    }
    report(&rt, &run.tally)?;
    let tally = &run.tally;
    assert!(rt; tally.grown >= 100 && tally.found >= 100 && tally.full >= 100);
    assert!(rt; tally.no_switch >= 50 && tally.no_number >= 100 && tally.released >= 50);
    Ok(())
}
