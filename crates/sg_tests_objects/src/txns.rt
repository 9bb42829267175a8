//! Live transactions beside a plain list, and a full table.
ghost use Rattle.std.specs.Prelude.{IsTrue, sum_by, ◌≤◌};
ghost use Rattle.sg_core.specs.Live.{is_live};

use Call::*;
use sg_base::TxnId;
use sg_core::{MOST_LIVE, Txns};
use std::alloc::Global;
use std::test::Fail;

// A number, and how much it has reserved.
type Row = (u64, u32);

// What the calls that change nothing answer: how many are live, whether this one is, the oldest, the next after this
// one, and how much is reserved.
type Told = (usize, bool, Option<TxnId>, Option<TxnId>, u32);

// The next of a row of numbers without order, below 2^31.
fn draw(state: &mut u64) -> u64 {
    *state = state
        .wrapping_mul(6_364_136_223_846_793_005)
        .wrapping_add(1_442_695_040_888_963_407);
    *state >> 33
}

fn seen(txns: &Txns, t: u64) -> Told {
    (
        txns.count() as usize,
        txns.is_live(TxnId(t)),
        txns.oldest(),
        txns.next_after(TxnId(t)),
        txns.reserved(),
    )
}

fn is_listed(rows: &[Row], t: u64) -> bool {
    for (number, _) in rows {
        if *number == t {
            return true;
        }
    }
    false
}

// The lesser of a number, if there is one, and another one.
fn lesser(number: Option<u64>, other: u64) -> u64 {
    match number {
        Some(number) if number < other => number,
        _ => other,
    }
}

// The least number of the list, and the least above this one.
fn least(rows: &[Row], t: u64) -> (Option<u64>, Option<u64>) {
    let mut oldest = None;
    let mut next = None;
    for (number, _) in rows {
        oldest = Some(lesser(oldest, *number));
        if *number > t {
            next = Some(lesser(next, *number));
        }
    }
    (oldest, next)
}

fn all_reserved(rows: &[Row]) -> u32 {
    let mut all = 0u32;
    for (_, reserved) in rows {
        all = all.wrapping_add(*reserved);
    }
    all
}

fn txn(number: Option<u64>) -> Option<TxnId> {
    match number {
        Some(number) => Some(TxnId(number)),
        None => None,
    }
}

// The same of the list.
fn listed(rows: &[Row], t: u64) -> Told {
    let (oldest, next) = least(rows, t);
    (
        rows.len(),
        is_listed(rows, t),
        txn(oldest),
        txn(next),
        all_reserved(rows),
    )
}

// A transaction begins, where it may: fewer than 64 are live, and its number is above all of theirs.
fn begin(txns: &mut Txns, t: u64) -> bool {
    if txns.count() >= 64 || txns.is_live(TxnId(t)) || txns.next_after(TxnId(t)).is_some() {
        return false;
    }
    txns.add(TxnId(t));
    true
}

// It ends, where it is live.
fn end(txns: &mut Txns, t: u64) -> bool {
    if !txns.is_live(TxnId(t)) {
        return false;
    }
    txns.remove(TxnId(t));
    true
}

fn may_reserve(txns: &Txns, t: u64) -> bool
    ensures live { IsTrue result → IsTrue (is_live txns.now t) }
    ensures fits { IsTrue result → sum_by (λ x. x.reserved) txns.now ≤ 1000000 }
{
    txns.is_live(TxnId(t)) && txns.reserved() <= 1_000_000
}

// It reserves one, where it is live.
fn reserve_one(txns: &mut Txns, t: u64) -> bool {
    if !may_reserve(txns, t) {
        return false;
    }
    txns.reserve(TxnId(t));
    true
}

// It reserves one and gives it back, where it is live.
fn reserve_none(txns: &mut Txns, t: u64) -> bool {
    if !may_reserve(txns, t) {
        return false;
    }
    txns.reserve(TxnId(t));
    txns.unreserve(TxnId(t));
    true
}

fn newest(rows: &[Row]) -> u64 {
    let mut newest = 0;
    for (number, _) in rows {
        newest = newest.max(*number);
    }
    newest
}

fn begin_both(txns: &mut Txns, rows: &mut Vec<Row>, t: u64) -> Result<(), Fail> {
    if begin(txns, t) {
        rows.push((t, 0))?;
    }
    Ok(())
}

fn end_both(txns: &mut Txns, rows: &mut Vec<Row>, t: u64) {
    end(txns, t);
    rows.retain(|row| row.0 != t);
}

fn reserve_both(txns: &mut Txns, rows: &mut [Row], t: u64) {
    if reserve_one(txns, t) {
        reserve_none(txns, t);
    }
    for row in rows {
        if row.0 == t {
            row.1 = row.1.wrapping_add(1);
        }
    }
}

// One call by turns, of the transactions and of the list.
fn one_call(state: &mut u64, txns: &mut Txns, rows: &mut Vec<Row>) -> Result<u64, Fail> {
    let t = draw(state) % 100;
    let newest = newest(rows.as_slice());
    match draw(state) % 4 {
        0 => begin_both(txns, rows, newest.wrapping_add(1 + draw(state) % 3))?,
        1 => end_both(txns, rows, newest.wrapping_sub(draw(state) % 8)),
        _ => reserve_both(
            txns,
            rows.as_mut_slice(),
            newest.wrapping_sub(draw(state) % 8),
        ),
    }
    Ok(newest.wrapping_sub(t % 10))
}

// After which call by turns the two differ, if they do, and how many were live at most.
fn turns(txns: &mut Txns, rows: &mut Vec<Row>) -> Result<(Option<u64>, usize), Fail> {
    let mut state = 1;
    let mut most = 0;
    for turn in 0..5000 {
        let t = one_call(&mut state, txns, rows)?;
        if seen(txns, t) != listed(rows.as_slice(), t) {
            return Ok((Some(turn), most));
        }
        most = rows.len().max(most);
    }
    Ok((None, most))
}

fn turns_of(alloc: Global) -> Result<(Option<u64>, usize), Fail> {
    let mut txns = Txns::new(alloc)?;
    let mut rows = Vec::new(alloc);
    let came = turns(&mut txns, &mut rows);
    drop(rows);
    drop(txns);
    came
}

#[test]
fn calls_by_turns(rt: HostRuntime) -> Result<(), Fail> {
    let (differs, most) = turns_of(rt.alloc())?;
    assert_eq!(rt; differs, None);
    assert!(rt; most > 5);
    Ok(())
}

// What a row calls.
#[derive(Clone, Copy)]
enum Call {
    Begin,
    End,
    ReserveOne,
    ReserveNone,
    Count,
    Oldest,
    NextAfter,
    Reserved,
}

// What it answers: 1 for yes, and 0 for no.
const YES: Option<u64> = Some(1);

const NO: Option<u64> = Some(0);

fn said(yes: bool) -> Option<u64> {
    if yes { YES } else { NO }
}

fn number(t: Option<TxnId>) -> Option<u64> {
    match t {
        Some(t) => Some(t.0),
        None => None,
    }
}

fn answer(txns: &mut Txns, call: Call, t: u64) -> Option<u64> {
    match call {
        Begin => said(begin(txns, t)),
        End => said(end(txns, t)),
        ReserveOne => said(reserve_one(txns, t)),
        ReserveNone => said(reserve_none(txns, t)),
        Count => Some(seen(txns, t).0 as u64),
        Oldest => number(seen(txns, t).2),
        NextAfter => number(seen(txns, t).3),
        Reserved => Some(seen(txns, t).4 as u64),
    }
}

// The first of ten numbers apart, so many of them, at which a call answers something else.
fn first_other(
    txns: &mut Txns,
    call: Call,
    first: u64,
    count: u64,
    want: Option<u64>,
) -> Option<u64> {
    let mut t = first;
    for _ in 0..count {
        if answer(txns, call, t) != want {
            return Some(t);
        }
        t = t.wrapping_add(10);
    }
    None
}

// A call with numbers ten apart, the first one and how many, and what each comes to. In the midst the first half
// goes, and as many come behind the rest.
const WHEN_FULL: [(Call, u64, u64, Option<u64>); 18] = [
    (Oldest, 0, 1, None),
    (Begin, 0, 64, YES),
    (Count, 0, 1, Some(64)),
    (Begin, 1000, 1, NO),
    (Oldest, 0, 1, Some(0)),
    (NextAfter, 0, 1, Some(10)),
    (NextAfter, 629, 1, Some(630)),
    (NextAfter, 630, 1, None),
    (End, 0, 32, YES),
    (Begin, 640, 32, YES),
    (Count, 0, 1, Some(64)),
    (Oldest, 0, 1, Some(320)),
    (NextAfter, 630, 1, Some(640)),
    (ReserveOne, 950, 1, YES),
    (ReserveNone, 950, 1, YES),
    (ReserveOne, 310, 1, NO),
    (Reserved, 0, 1, Some(1)),
    (End, 950, 1, YES),
];

fn first_wrong(txns: &mut Txns) -> Option<usize> {
    for (i, (call, first, count, want)) in WHEN_FULL.iter().enumerate() {
        if first_other(txns, *call, *first, *count, *want).is_some() {
            return Some(i);
        }
    }
    None
}

// The first row that answers something else, and what is reserved in the end.
fn full_of(alloc: Global) -> Result<(Option<usize>, u32), Fail> {
    let mut txns = Txns::new(alloc)?;
    let wrong = first_wrong(&mut txns);
    Ok((wrong, seen(&txns, 0).4))
}

#[test]
fn full(rt: HostRuntime) -> Result<(), Fail> {
    assert_eq!(rt; MOST_LIVE, 64);
    assert_eq!(rt; full_of(rt.alloc())?, (None, 0));
    Ok(())
}
