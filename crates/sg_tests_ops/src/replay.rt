// Replay of two pages in two threads.
ghost use Rattle.std.specs.Prelude.{◌≡◌, ◌<◌, All, map};
ghost use Rattle.sg_frames.specs.declared.place.Place.TheVariants.{Page};
ghost use Rattle.sg_frames.specs.Held.{IsHere, NoneLent};
ghost use Rattle.sg_redo.specs.Units.{Lies, lent_at};

use crate::laws::are_taken;
use sg_base::{PAGE_SIZE, PageOp, Steps};
use sg_frames::{Frames, Loan};
use sg_meeting::Flags;
use sg_ops::Ops;
use sg_redo::{Place, Unit, apply_page, are_known, replay_all};
use sg_segment::Dirty;
use std::alloc::Global;
use std::marker::Brand;
use std::sync::ledger::{Blank, Ledger};
use std::test::Fail;
use std::thread::Threads;

// Two records of transaction 5: operation 7 on the item in slot 0 of page 3, and operation 8 on that of page 4, each with an
// argument of one byte.
const TEXT: [u8; 70] = [
    2, 35, 0, 0, 0, 5, 0, 0, 0, 0, 0, 0, 0, 26, 0, 0, 0, 0, 0, 0, 0, 3, 0, 0, 0, 6, 0, 0, 7, 0, 0,
    0, 1, 0, 1, 2, 35, 0, 0, 0, 5, 0, 0, 0, 0, 0, 0, 0, 26, 0, 0, 0, 0, 0, 0, 0, 4, 0, 0, 0, 6, 0,
    0, 8, 0, 0, 0, 1, 0, 1,
];

const PLACES: [Place; 2] = [
    Place {
        unit: 3,
        lsn: 20,
        at: 0,
    },
    Place {
        unit: 4,
        lsn: 55,
        at: 35,
    },
];

// Lays over the page that is lent: its number is 9, and slot 0 holds `abc`.
fn lay_over(loan: &mut Loan, ops: &Ops)
    ensures spot { loan.new.spot ≡ loan.old.spot }
    ensures place { loan.new.place ≡ loan.old.place }
{
    let mut page = [0; PAGE_SIZE];
    apply_page(&mut page, 5, &PageOp::Format { kind: 4 }, ops);
    let put = PageOp::Put {
        slot: 0,
        bytes: b"abc",
    };
    apply_page(&mut page, 9, &put, ops);
    let bytes = loan.bytes_mut();
    if bytes.len() == PAGE_SIZE {
        bytes.copy_from_slice(&page);
    }
}

// The page of this number, of which one place is its own.
fn unit_of(number: u32, loan: Loan, first: u32) -> Unit
    ensures loan { result.loan ≡ loan }
    ensures first { result.first ≡ first }
    ensures count { result.count ≡ 1 }
{
    Unit {
        number,
        loan,
        dirty: Dirty::new(),
        since: None,
        first,
        count: 1,
    }
}

// What was lent for the unit.
fn loan_of(unit: Unit) -> Loan
    ensures { result ≡ unit.loan }
{
    let Unit {
        number: _,
        loan,
        dirty: _,
        since: _,
        first: _,
        count: _,
    } = unit;
    loan
}

// Replays the records at these places, each on its unit, in at most two threads.
fn replay_known<R: Threads + Sync, L: Ledger>(
    rt: &R,
    units: &mut [Unit],
    places: &[Place],
    text: &[u8],
    ops: &Ops,
    steps: &mut Steps<L>,
)
    requires { All (λ u. Lies places.now u) units.old }
    ensures { map lent_at units.new ≡ map lent_at units.old }
{
    if are_known(places, text, ops) {
        replay_all(rt, 2, units, places, text, ops, steps);
    }
}

// Replays the record at the first place on one page, and that at the second on another.
fn replay_both<R: Threads + Sync, L: Ledger>(
    rt: &R,
    loans: (Loan, Loan),
    places: &[Place; 2],
    text: &[u8],
    ops: &Ops,
    steps: &mut Steps<L>,
) -> (Loan, Loan)
    ensures left { (result.0.spot ≡ loans.0.spot) × (result.0.place ≡ loans.0.place) }
    ensures right { (result.1.spot ≡ loans.1.spot) × (result.1.place ≡ loans.1.place) }
{
    let (left, right) = loans;
    let mut units = [unit_of(3, left, 0), unit_of(4, right, 1)];
    replay_known(rt, &mut units, places, text, ops, steps);
    let [left, right] = units;
    (loan_of(left), loan_of(right))
}

// Lends two page frames, replays a record on each, and takes both back.
fn replay_pages<R: Threads + Sync, L: Ledger>(
    rt: &R,
    frames: &mut Frames,
    ops: &Ops,
    steps: &mut Steps<L>,
)
    requires first { IsHere frames.old (Page 0) }
    requires second { IsHere frames.old (Page 1) }
    ensures { NoneLent frames.old → NoneLent frames.new }
{
    let mut left = frames.take(0);
    let mut right = frames.take(1);
    lay_over(&mut left, ops);
    lay_over(&mut right, ops);
    let (left, right) = replay_both(rt, (left, right), &PLACES, &TEXT, ops, steps);
    frames.give(left);
    frames.give(right);
}

// How often one of the two operations saw the other's flag.
fn met<R: Threads + Sync, L: Ledger>(rt: &R, alloc: Global, blank: Blank) -> Result<u64, Fail>
    requires name { blank.name ≡ L.name }
    requires parts { blank.parts ≡ L.parts }
    requires some { 0 < L.parts }
{
    let flags = Flags::new(alloc)?;
    let mut ops = Ops::new(alloc)?;
    are_taken(alloc, &mut ops, &flags)?;
    let mut steps = Steps::<L>::open(blank);
    let mut frames = Frames::new(alloc, 2, 1)?;
    replay_pages(rt, &mut frames, &ops, &mut steps);
    frames.end();
    Ok(flags.count())
}

// Operations that run at once, on items of two pages, see each other's flag.
#[test]
fn two_pages_are_replayed_at_once(rt: HostRuntime) -> Result<(), Fail> {
    assert_eq!(rt; met::<_, Brand>(&rt, rt.alloc(), Blank::new(1))?, 2);
    Ok(())
}
