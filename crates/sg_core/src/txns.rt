ghost use Rattle.std.specs.Prelude.{◌≡◌, ◌+◌, ◌-◌, ◌*◌, ◌^◌, ◌<◌, ◌≤◌, [], ◌∷◌, ◌++◌, Some, length, false, All, IfOk, IfSome, IfNone, IsSome, IsTrue, sum_by, slice_get, take, nat_lt, cond, ◌==◌, Option, ◌||◌, ℕ};
ghost use Rattle.std.specs.List.{find, list_any};
ghost use Rattle.std.specs.Option.{option_map};
ghost use Rattle.slab.specs.Slab.{get, with_value};
ghost use Rattle.sg_serial.specs.Locks.{lesser};
ghost use Rattle.sg_serial.specs.Runs.{nth_mark};
ghost use Rattle.sg_core.specs.Live.{begun, is_of, is_live, without, reserving, unreserving, has_dropped, dropping, number_of, marks_of, remarking};
ghost use Rattle.sg_core.specs.Order.{least_number, is_above};
ghost use Rattle.sg_core.specs.Slots.{live_of, HasAt};

use crate::marks::{MOST_MARKS, Marks};
use sg_base::{Lsn, OutOfMemory, TxnId};
use slab::Slab;
use std::alloc::Global;
use std::marker::Model;

/// The most transactions that are live at once.
pub const MOST_LIVE: usize = 64;

#[derive(Clone, Copy)]
struct Live {
    transaction: TxnId,
    reserved: u32,
    dropped: bool,
    marks: Marks,
}

/// The live transactions, at most 64. Contracts see the list of them in the order of their numbers,
/// which is the order in which they began.
#[derive(Drop)]
pub struct Txns {
    live: Slab<Live>,
    // The sum of what all have reserved.
    reserved: u32,
}

impl Model for Txns {
    ghost use Rattle.std.specs.Prelude.{List};
    ghost use Rattle.std.specs.Coded.{coded_list};
    ghost use Rattle.sg_core.specs.Live.{Txn};
    ghost use Rattle.sg_core.specs.Codes.{txn_code};
    ghost use Rattle.sg_core.specs.Order.{in_order};
    ghost use Rattle.sg_core.specs.Slots.{live_of, IsKept};

    ghost Value = { List Txn };

    ghost coded = { coded_list txn_code };

    ghost view = { λ s. in_order (live_of s.live.slots) };

    ghost invariant = { λ s. IsKept s.live s.reserved };
}

// The key and the entry of the transaction, if it is live.
fn find(live: &Slab<Live>, t: TxnId) -> Option<(usize, Live)>
    ensures found { IfSome result (λ f. HasAt live.now t.0 f.0 f.1) }
    ensures absent { IfNone result (list_any (is_of t.0) (live_of live.now.slots) ≡ false) }
{
    for (key, entry) in live.iter() {
        if entry.transaction == t {
            return Some((key, *entry));
        }
    }
    None
}

// Writes another entry under a key that has one.
fn put(live: &mut Slab<Live>, key: usize, entry: Live)
    requires { IsSome (get live.old key) }
    ensures { live.new ≡ with_value live.old key entry }
{
    if let Some(slot) = live.get_mut(key) {
        *slot = entry;
    }
}

// The lesser of two numbers, of which one may not be there.
fn lesser(n: u64, least: Option<u64>) -> u64
    ensures { Some result ≡ lesser n least }
{
    match least {
        Some(m) if m < n => m,
        _ => n,
    }
}

// Whether the number is above the bound, if there is one.
fn is_above(n: u64, bound: Option<u64>) -> bool
    ensures { result ≡ is_above bound n }
{
    match bound {
        Some(m) => m < n,
        None => true,
    }
}

// The lesser of the entry's number and another, where the entry's is above the bound.
fn least_with(entry: Live, bound: Option<u64>, least: Option<u64>) -> Option<u64>
    ensures { result ≡ cond (is_above bound entry.transaction.0) (lesser entry.transaction.0 least) least }
{
    if is_above(entry.transaction.0, bound) {
        return Some(lesser(entry.transaction.0, least));
    }
    least
}

// The least number above the bound, if there is one.
fn least_above(live: &Slab<Live>, bound: Option<u64>) -> Option<u64>
    ensures { result ≡ least_number (λ x. is_above bound x.transaction) (live_of live.now.slots) }
{
    let mut least = None;
    for (_, entry) in live.iter() {
        least = least_with(*entry, bound, least);
    }
    least
}

// One of those that are reserved, or none where there are none.
fn one_of(reserved: u32) -> u32
    ensures few { result ≤ reserved }
    ensures rest { reserved - result ≡ reserved - 1 }
{
    if reserved > 0 { 1 } else { 0 }
}

fn as_number(n: Option<u64>) -> Option<TxnId>
    ensures { result ≡ option_map (λ m. record { 0 = m }) n }
{
    n.map(TxnId)
}

impl Txns {
    /// None is live, and there is room for 64. `OutOfMemory` where memory is refused; no other call
    /// takes any.
    pub fn new(alloc: Global) -> Result<Txns, OutOfMemory>
        ensures { IfOk result (λ s. s ≡ []) }
    {
        match Slab::with_capacity(alloc, MOST_LIVE) {
            Ok(live) => Ok(Txns { live, reserved: 0 }),
            Err(_) => Err(OutOfMemory),
        }
    }

    /// A transaction begins, whose number is above those of all that are live.
    pub fn add(&mut self, t: TxnId)
        requires room { length self.old < MOST_LIVE }
        requires above { All (λ x. x.transaction < t.0) self.old }
        ensures { self.new ≡ self.old ++ begun t.0 ∷ [] }
    {
        self.live.insert_reserved(Live {
            transaction: t,
            reserved: 0,
            dropped: false,
            marks: Marks::none(),
        });
    }

    /// A live transaction ends, with what it has reserved.
    pub fn remove(&mut self, t: TxnId)
        requires { IsTrue (is_live self.old t.0) }
        ensures { self.new ≡ without t.0 self.old }
    {
        if let Some((key, entry)) = find(&self.live, t) {
            self.live.remove(key);
            self.reserved -= entry.reserved;
        }
    }

    /// Whether the transaction is live.
    pub fn is_live(&self, t: TxnId) -> bool
        ensures { result ≡ is_live self.now t.0 }
    {
        find(&self.live, t).is_some()
    }

    /// How many are live.
    pub fn count(&self) -> u32
        ensures { result ≡ length self.now }
    {
        self.live.len() as u32
    }

    /// The live transaction that began first, and `None` exactly where none is live.
    pub fn oldest(&self) -> Option<TxnId>
        ensures { result ≡ option_map number_of (slice_get self.now 0) }
    {
        as_number(least_above(&self.live, None))
    }

    /// The first live transaction above this number, which needn't be live, and `None` exactly where
    /// there is none.
    pub fn next_after(&self, t: TxnId) -> Option<TxnId>
        ensures { result ≡ option_map number_of (find (λ x. nat_lt t.0 x.transaction) self.now) }
    {
        as_number(least_above(&self.live, Some(t.0)))
    }

    /// A live transaction reserves one more. The sum of all stays below 2^32.
    pub fn reserve(&mut self, t: TxnId)
        requires live { IsTrue (is_live self.old t.0) }
        requires fits { sum_by (λ x. x.reserved) self.old + 1 < 2 ^ 32 }
        ensures { self.new ≡ reserving t.0 self.old }
    {
        if let Some((key, entry)) = find(&self.live, t) {
            put(
                &mut self.live,
                key,
                Live {
                    transaction: t,
                    reserved: entry.reserved + 1,
                    dropped: entry.dropped,
                    marks: entry.marks,
                },
            );
            self.reserved += 1;
        }
    }

    /// A live transaction gives back one of those that it has reserved, if it has reserved any.
    pub fn unreserve(&mut self, t: TxnId)
        requires { IsTrue (is_live self.old t.0) }
        ensures { self.new ≡ unreserving t.0 self.old }
    {
        if let Some((key, entry)) = find(&self.live, t) {
            let given = one_of(entry.reserved);
            put(
                &mut self.live,
                key,
                Live {
                    transaction: t,
                    reserved: entry.reserved - given,
                    dropped: entry.dropped,
                    marks: entry.marks,
                },
            );
            self.reserved -= given;
        }
    }

    /// A live transaction has dropped something.
    pub fn mark_dropped(&mut self, t: TxnId)
        requires { IsTrue (is_live self.old t.0) }
        ensures { self.new ≡ dropping t.0 self.old }
    {
        if let Some((key, entry)) = find(&self.live, t) {
            put(
                &mut self.live,
                key,
                Live {
                    transaction: t,
                    reserved: entry.reserved,
                    dropped: true,
                    marks: entry.marks,
                },
            );
        }
    }

    /// Whether the transaction is live and has dropped something.
    pub fn has_dropped(&self, t: TxnId) -> bool
        ensures { result ≡ has_dropped self.now t.0 }
    {
        match find(&self.live, t) {
            Some((_, entry)) => entry.dropped,
            None => false,
        }
    }

    /// How much all have reserved.
    pub fn reserved(&self) -> u32
        ensures { result ≡ sum_by (λ x. x.reserved) self.now }
    {
        self.reserved
    }

    /// How many marks a live transaction has; 0 where it isn't live.
    pub fn marks(&self, t: TxnId) -> u16
        ensures { result ≡ length (marks_of self.now t.0) }
    {
        match find(&self.live, t) {
            Some((_, entry)) => entry.marks.len() as u16,
            None => 0,
        }
    }

    /// A live transaction sets a mark, at the record with this number; it had fewer than 16. The answer is the
    /// mark's number, of which the first is 1.
    pub fn push_mark(&mut self, t: TxnId, at: Lsn) -> u16
        requires live { IsTrue (is_live self.old t.0) }
        requires room { length (marks_of self.old t.0) < MOST_MARKS }
        ensures marks { self.new ≡ remarking t.0 (λ ms. ms ++ at ∷ []) self.old }
        ensures number { result ≡ length (marks_of self.old t.0) + 1 }
    {
        let Some((key, entry)) = find(&self.live, t) else {
            return 0;
        };
        put(
            &mut self.live,
            key,
            Live {
                transaction: t,
                reserved: entry.reserved,
                dropped: entry.dropped,
                marks: entry.marks.with(at),
            },
        );
        entry.marks.len() as u16 + 1
    }

    /// The number of the record at a mark; `None` exactly where the transaction isn't live or has no mark of
    /// this number.
    pub fn mark(&self, t: TxnId, number: u16) -> Option<Lsn>
        ensures { result ≡ nth_mark number (marks_of self.now t.0) }
    {
        match find(&self.live, t) {
            Some((_, entry)) => entry.marks.nth(number as usize),
            None => None,
        }
    }

    /// A live transaction has only the first so many of its marks, or all where there are fewer.
    pub fn cut_marks(&mut self, t: TxnId, count: u16)
        requires { IsTrue (is_live self.old t.0) }
        ensures { self.new ≡ remarking t.0 (λ ms. take count ms) self.old }
    {
        if let Some((key, entry)) = find(&self.live, t) {
            put(
                &mut self.live,
                key,
                Live {
                    transaction: t,
                    reserved: entry.reserved,
                    dropped: entry.dropped,
                    marks: entry.marks.first(count as usize),
                },
            );
        }
    }
}
