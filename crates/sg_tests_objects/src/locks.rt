//! Locks beside a plain list of pairs, worked rows, and a full table.
use Wants::*;
use What::*;
use sg_base::{Name, TxnId};
use sg_locks::{LockAnswer, Locks, MOST_HELD};
use sg_model::{Key, Resource, Touch, conflict};
use std::alloc::Global;
use std::test::Fail;

type Pair = (TxnId, Touch);

// Two names, and two keys.
#[derive(Clone, Copy)]
struct Known {
    a: Name,
    b: Name,
    x: Key,
    y: Key,
}

fn names_and_keys() -> Option<Known> {
    if let Some(a) = Name::new(b"a")
        && let Some(b) = Name::new(b"b")
        && let Some(x) = Key::new(b"x")
        && let Some(y) = Key::new(b"y")
    {
        return Some(Known { a, b, x, y });
    }
    None
}

// The next of a row of numbers without order, below 2^31.
fn draw(state: &mut u64) -> u64 {
    *state = state
        .wrapping_mul(6_364_136_223_846_793_005)
        .wrapping_add(1_442_695_040_888_963_407);
    *state >> 33
}

fn drawn_name(known: &Known, state: &mut u64) -> Name {
    if draw(state) % 2 == 0 {
        known.a
    } else {
        known.b
    }
}

fn drawn_key(known: &Known, state: &mut u64) -> Key {
    if draw(state) % 2 == 0 {
        known.x
    } else {
        known.y
    }
}

// One of the resources of two objects, with three items and two keys each.
fn drawn_resource(known: &Known, state: &mut u64) -> Resource {
    let name = drawn_name(known, state);
    match draw(state) % 8 {
        0 => Resource::Name(name),
        1 => Resource::Len(name),
        2 => Resource::Item(name, draw(state) % 3),
        3 => Resource::Key(name, drawn_key(known, state)),
        4 => Resource::Body(name),
        5 => Resource::Keys(name),
        6 => Resource::Names,
        _ => Resource::AllOf(name),
    }
}

fn drawn(known: &Known, state: &mut u64) -> Touch {
    let what = drawn_resource(known, state);
    Touch {
        what,
        write: draw(state) % 4 == 0,
    }
}

fn conflicts(touch: &Touch, wanted: &[Touch]) -> bool {
    for other in wanted {
        if conflict(touch, other) {
            return true;
        }
    }
    false
}

// The lesser of a number, if there is one, and another one.
fn lesser(first: Option<TxnId>, other: TxnId) -> TxnId {
    match first {
        Some(first) if first.0 < other.0 => first,
        _ => other,
    }
}

// The first of the others, by number, that holds a touch in conflict.
fn plain_holder(held: &[Pair], t: TxnId, wanted: &[Touch]) -> Option<TxnId> {
    let mut first = None;
    for (u, touch) in held {
        if *u != t && conflicts(touch, wanted) {
            first = Some(lesser(first, *u));
        }
    }
    first
}

// Whether a transaction holds the touch's resource already, which it may then write too.
fn plain_widen(held: &mut [Pair], t: TxnId, touch: &Touch) -> bool {
    for (u, mine) in held {
        if *u == t && mine.what.is_same(&touch.what) {
            if touch.write {
                mine.write = true;
            }
            return true;
        }
    }
    false
}

// More touches in the list, in which each pair stands once.
fn plain_hold(held: &mut Vec<Pair>, t: TxnId, wanted: &[Touch]) -> Result<(), Fail> {
    for touch in wanted {
        if !plain_widen(held.as_mut_slice(), t, touch) {
            held.push((t, *touch))?;
        }
    }
    Ok(())
}

fn plain_lock(held: &mut Vec<Pair>, t: TxnId, wanted: &[Touch]) -> Result<LockAnswer, Fail> {
    if let Some(u) = plain_holder(held.as_slice(), t, wanted) {
        return Ok(LockAnswer::Busy(u));
    }
    let mut after = held.clone()?;
    plain_hold(&mut after, t, wanted)?;
    if after.len() > MOST_HELD {
        return Ok(LockAnswer::LocksFull);
    }
    *held = after;
    Ok(LockAnswer::Granted)
}

fn plain_release(held: &mut Vec<Pair>, t: TxnId) {
    held.retain(|pair| pair.0 != t);
}

fn answer(locks: &mut Locks, t: TxnId, wanted: &[Touch]) -> LockAnswer {
    locks.try_lock(t, wanted)
}

fn release(locks: &mut Locks, t: TxnId) {
    locks.release(t);
}

// A transaction asks for one to three touches of both: what the locks and the list answer.
fn ask_both(
    known: &Known,
    state: &mut u64,
    locks: &mut Locks,
    held: &mut Vec<Pair>,
    t: TxnId,
) -> Result<(LockAnswer, LockAnswer), Fail> {
    let wanted = [
        drawn(known, state),
        drawn(known, state),
        drawn(known, state),
    ];
    let wanted = &wanted[..1 + (draw(state) % 3) as usize];
    Ok((answer(locks, t, wanted), plain_lock(held, t, wanted)?))
}

// One call by turns: mostly a transaction asks, else it ends.
fn one_call(
    known: &Known,
    state: &mut u64,
    locks: &mut Locks,
    held: &mut Vec<Pair>,
) -> Result<(LockAnswer, LockAnswer), Fail> {
    let t = TxnId(draw(state) % 5);
    if draw(state) % 6 == 0 {
        release(locks, t);
        plain_release(held, t);
        return Ok((LockAnswer::Granted, LockAnswer::Granted));
    }
    ask_both(known, state, locks, held, t)
}

// What calls by turns came to: at which the two answered differently, if they did, how many were granted, and how many
// pairs were held at most.
type Came = (Option<u32>, u32, usize);

fn turns(known: &Known, locks: &mut Locks, held: &mut Vec<Pair>) -> Result<Came, Fail> {
    let mut state = 1;
    let mut granted = 0u32;
    let mut most = 0;
    for turn in 0..5000 {
        let (answer, want) = one_call(known, &mut state, locks, held)?;
        if answer != want {
            return Ok((Some(turn), granted, most));
        }
        if answer == LockAnswer::Granted {
            granted = granted.wrapping_add(1);
        }
        most = held.len().max(most);
    }
    Ok((None, granted, most))
}

// Locks, and the names and keys of their rows.
#[derive(Drop)]
struct Trial {
    known: Known,
    locks: Locks,
}

impl Trial {
    fn new(alloc: Global) -> Result<Trial, Fail> {
        let known = names_and_keys().ok_or("names and keys")?;
        let locks = Locks::new(alloc)?;
        Ok(Trial { known, locks })
    }
}

fn turns_of(alloc: Global) -> Result<Came, Fail> {
    let mut trial = Trial::new(alloc)?;
    let mut held = Vec::new(alloc);
    let came = turns(&trial.known, &mut trial.locks, &mut held);
    drop(held);
    drop(trial);
    came
}

#[test]
fn calls_by_turns(rt: HostRuntime) -> Result<(), Fail> {
    let (differs, granted, most) = turns_of(rt.alloc())?;
    assert_eq!(rt; differs, None);
    assert!(rt; granted > 1000 && granted < 4000);
    assert!(rt; most > 8);
    Ok(())
}

// A resource of the object `a`, whose key is `x`.
#[derive(Clone, Copy)]
enum What {
    Whether,
    Length,
    Item(u64),
    Entry,
    Body,
    Keys,
    Names,
    Whole,
}

// A touch of a row, if there is one more.
#[derive(Clone, Copy)]
enum Wants {
    Read(What),
    Write(What),
    Nothing,
}

fn resource_of(known: &Known, what: What) -> Resource {
    let name = known.a;
    match what {
        Whether => Resource::Name(name),
        Length => Resource::Len(name),
        Item(index) => Resource::Item(name, index),
        Entry => Resource::Key(name, known.x),
        Body => Resource::Body(name),
        Keys => Resource::Keys(name),
        Names => Resource::Names,
        Whole => Resource::AllOf(name),
    }
}

fn touch_of(known: &Known, wants: Wants) -> Option<Touch> {
    match wants {
        Read(what) => Some(Touch {
            what: resource_of(known, what),
            write: false,
        }),
        Write(what) => Some(Touch {
            what: resource_of(known, what),
            write: true,
        }),
        Nothing => None,
    }
}

// What the locks answer who wants these. One that wants nothing ends.
fn answer_of(locks: &mut Locks, known: &Known, t: TxnId, wants: &[Wants; 3]) -> LockAnswer {
    let [first, second, third] = *wants;
    let Some(first) = touch_of(known, first) else {
        release(locks, t);
        return LockAnswer::Granted;
    };
    let Some(second) = touch_of(known, second) else {
        return answer(locks, t, &[first]);
    };
    let Some(third) = touch_of(known, third) else {
        return answer(locks, t, &[first, second]);
    };
    answer(locks, t, &[first, second, third])
}

// Who asks for what, and the answer. Who wants nothing ends.
type Row = (u64, [Wants; 3], LockAnswer);

const GRANTED: LockAnswer = LockAnswer::Granted;

const NO_MORE: LockAnswer = LockAnswer::LocksFull;

const BUSY_1: LockAnswer = LockAnswer::Busy(TxnId(1));

const BUSY_3: LockAnswer = LockAnswer::Busy(TxnId(3));

const BUSY_4: LockAnswer = LockAnswer::Busy(TxnId(4));

const BUSY_5: LockAnswer = LockAnswer::Busy(TxnId(5));

const BUSY_7: LockAnswer = LockAnswer::Busy(TxnId(7));

const BUSY_9: LockAnswer = LockAnswer::Busy(TxnId(9));

// The first row that is answered otherwise, the rows asked one after another.
fn first_wrong(locks: &mut Locks, known: &Known, rows: &[Row]) -> Option<usize> {
    for (i, (t, wants, want)) in rows.iter().enumerate() {
        if answer_of(locks, known, TxnId(*t), wants) != *want {
            return Some(i);
        }
    }
    None
}

const OF_ITEMS: [Row; 9] = [
    (7, [Read(Whether), Read(Item(0)), Nothing], GRANTED),
    (5, [Read(Whether), Read(Item(0)), Nothing], GRANTED),
    // The least number is named, and not the first in the table.
    (9, [Write(Item(0)), Nothing, Nothing], BUSY_5),
    (9, [Write(Whole), Nothing, Nothing], BUSY_5),
    // What is held to be read can be written once nobody else reads it.
    (7, [Write(Item(0)), Nothing, Nothing], BUSY_5),
    (5, [Nothing, Nothing, Nothing], GRANTED),
    (7, [Write(Item(0)), Nothing, Nothing], GRANTED),
    (9, [Read(Item(0)), Nothing, Nothing], BUSY_7),
    (9, [Read(Whether), Read(Item(1)), Nothing], GRANTED),
];

const OF_MORE: [Row; 11] = [
    // A refused one holds nothing, so that these are free.
    (8, [Write(Length), Write(Item(1)), Nothing], BUSY_9),
    (9, [Write(Length), Nothing, Nothing], GRANTED),
    (7, [Nothing, Nothing, Nothing], GRANTED),
    (9, [Nothing, Nothing, Nothing], GRANTED),
    // Keys meet each key, and the names meet what makes or drops an object.
    (3, [Write(Entry), Nothing, Nothing], GRANTED),
    (4, [Read(Keys), Nothing, Nothing], BUSY_3),
    (4, [Read(Names), Nothing, Nothing], GRANTED),
    (3, [Write(Whole), Nothing, Nothing], BUSY_4),
    (4, [Nothing, Nothing, Nothing], GRANTED),
    (3, [Write(Whole), Nothing, Nothing], GRANTED),
    (4, [Read(Names), Nothing, Nothing], BUSY_3),
];

fn of_items(trial: &mut Trial) -> Option<usize> {
    first_wrong(&mut trial.locks, &trial.known, &OF_ITEMS)
}

fn of_more(trial: &mut Trial) -> Option<usize> {
    first_wrong(&mut trial.locks, &trial.known, &OF_MORE)
}

// The first row of each table, the tables one after another, that is answered otherwise.
fn wrong_of(alloc: Global) -> Result<[Option<usize>; 2], Fail> {
    let mut trial = Trial::new(alloc)?;
    let wrong = [of_items(&mut trial), of_more(&mut trial)];
    drop(trial);
    Ok(wrong)
}

#[test]
fn rows(rt: HostRuntime) -> Result<(), Fail> {
    assert_eq!(rt; wrong_of(rt.alloc())?, [None; 2]);
    Ok(())
}

// Whether a transaction gets each of so many items to read, one after another.
fn gets_items(locks: &mut Locks, known: &Known, t: TxnId, count: u64) -> bool {
    for index in 0..count {
        let wants = [Read(Item(index)), Nothing, Nothing];
        if answer_of(locks, known, t, &wants) != LockAnswer::Granted {
            return false;
        }
    }
    true
}

// Once transaction 1 holds 4,096 items to read.
const ITEMS_HELD: [Row; 6] = [
    // What is held already is no new pair, in the other mode neither.
    (1, [Write(Item(0)), Read(Item(4095)), Nothing], GRANTED),
    (1, [Read(Item(4096)), Nothing, Nothing], NO_MORE),
    (2, [Read(Item(1)), Nothing, Nothing], NO_MORE),
    // One that is in the way comes first.
    (2, [Read(Item(0)), Read(Length), Nothing], BUSY_1),
    (1, [Nothing, Nothing, Nothing], GRANTED),
    (2, [Write(Whole), Read(Whether), Read(Length)], GRANTED),
];

fn items_held(trial: &mut Trial) -> Option<usize> {
    first_wrong(&mut trial.locks, &trial.known, &ITEMS_HELD)
}

// Once transaction 2 holds 4,093 items to read beside these.
const ONE_LESS: [Row; 2] = [
    (2, [Read(Length), Read(Body), Nothing], NO_MORE),
    (2, [Read(Length), Read(Length), Nothing], GRANTED),
];

fn one_less(trial: &mut Trial) -> Option<usize> {
    first_wrong(&mut trial.locks, &trial.known, &ONE_LESS)
}

// Whether all items are granted, and the first row that is answered otherwise, of both tables.
fn filled(trial: &mut Trial) -> ([bool; 2], [Option<usize>; 2]) {
    let first = gets_items(&mut trial.locks, &trial.known, TxnId(1), 4096);
    let held = items_held(trial);
    let second = gets_items(&mut trial.locks, &trial.known, TxnId(2), 4093);
    let less = one_less(trial);
    ([first, second], [held, less])
}

fn filled_of(alloc: Global) -> Result<([bool; 2], [Option<usize>; 2]), Fail> {
    let mut trial = Trial::new(alloc)?;
    let came = filled(&mut trial);
    drop(trial);
    Ok(came)
}

#[test]
fn full(rt: HostRuntime) -> Result<(), Fail> {
    let (granted, wrong) = filled_of(rt.alloc())?;
    assert_eq!(rt; granted, [true; 2]);
    assert_eq!(rt; wrong, [None; 2]);
    Ok(())
}
