ghost use Rattle.std.specs.Prelude.{◌≡◌, ◌+◌, ◌<◌, ◌≤◌, ◌==◌, ℕ, IsTrue, [], ◌∷◌, ◌++◌, length, map, take, drop, slice_index_or, IfOk, IfNone, IfSome, Option, Some, None, true, not, ◌||◌, ◌&&◌, cond, vec_capacity};
ghost use Rattle.std.specs.List.{list_any, list_all};
ghost use Rattle.sg_serial.specs.Locks.{first_holder, lesser, hold_one, hold_all, released, is_pair, AreOnce};
ghost use Rattle.sg_model.specs.Touches.{same_resource, conflict};
ghost use Rattle.sg_model.specs.Resources.{shown_resource, shown_touch};
ghost use Rattle.sg_locks.specs.Answers.{lock_answer, locks_after};
ghost use Rattle.sg_locks.specs.Buckets.{resource_bucket, name_bucket, resource_buckets, name_buckets};
ghost use Rattle.sg_locks.specs.Found.{AreBucketsOf};
ghost use Rattle.sg_locks.specs.Held.{IsClear, is_held, AreCompatible, once_prop};
ghost use Rattle.sg_locks.specs.Spots.{IsSpotOf};
ghost use Rattle.sg_locks.specs.Chain.{is_on, IsChain};
ghost use Rattle.sg_locks.specs.Places.{first_place, last_place, joined, blocks, lesser_of, least_of};
ghost use Rattle.sg_locks.specs.Shown.{shown_hold, holds_of};

use crate::bucket::{Buckets, keys_bucket, whole_bucket};
use crate::chains::Chains;
use crate::finder::Finder;
use sg_base::{OutOfMemory, TxnId};
use sg_model::{Resource, Touch, conflict};
use std::alloc::Global;

/// The most pairs of a transaction and a resource that are held.
pub const MOST_HELD: usize = 4096;

/// What asking for locks comes to.
#[derive(Clone, Copy, Debug, PartialEq, Eq)]
pub enum LockAnswer {
    /// All of them are held now.
    Granted,
    /// Nothing has changed: this transaction is the first of those that hold one in conflict.
    Busy(TxnId),
    /// Nothing has changed: there would be more pairs than 4,096.
    LocksFull,
}

// A touch that a transaction holds.
#[derive(Clone, Copy)]
pub struct Hold {
    transaction: TxnId,
    touch: Touch,
}

// Where a touch of a transaction is to be held: the buckets of its resource, and the first place that
// has the transaction's hold of that, if there is one.
#[derive(Clone, Copy)]
struct Spot {
    buckets: Buckets,
    place: Option<usize>,
}

// What leads from one hold to those before it: those of the resources in a bucket, those of the
// names in a bucket, or all.
#[derive(Clone, Copy)]
enum Chain {
    Resource(usize),
    Name(usize),
    Every,
}

// The pairs in the order in which they were first held, and chains of those whose resource, and of
// those whose name, is in one bucket.
#[derive(Drop)]
pub struct Table {
    holds: Vec<Hold>,
    by_resource: Chains,
    by_name: Chains,
    ghost room: { 4096 ≤ vec_capacity holds },
    ghost few: { length holds.items ≤ 4096 },
    ghost resources: { by_resource ≡ resource_buckets (holds_of holds.items) },
    ghost names: { by_name ≡ name_buckets (holds_of holds.items) },
    ghost compatible: { AreCompatible (holds_of holds.items) },
    ghost once: { AreOnce same_resource (holds_of holds.items) } by { once_prop _ },
}

// Whether the transaction holds this itself.
fn is_own(t: TxnId, hold: &Hold) -> bool
    ensures { result ≡ ((shown_hold hold.now).transaction == t.0) }
{
    hold.transaction == t
}

// Whether another transaction holds this, in conflict with the touch.
fn is_blocked(t: TxnId, touch: &Touch, hold: &Hold) -> bool
    ensures { result ≡ blocks t.0 (shown_touch touch.now) (shown_hold hold.now) }
{
    hold.transaction != t && conflict(&hold.touch, touch)
}

// Whether this is the transaction's hold of the resource.
#[inline(always)]
fn is_pair(t: TxnId, what: &Resource, hold: &Hold) -> bool
    ensures { result ≡ is_pair same_resource t.0 (shown_resource what.now) (shown_hold hold.now) }
{
    hold.transaction == t && hold.touch.what.is_same(what)
}

// Whether the hold is to write where the touch is.
fn is_enough(hold: &Hold, touch: &Touch) -> bool
    ensures { result ≡ ((shown_hold hold.now).touch.write || not (shown_touch touch.now).write) }
{
    hold.touch.write || !touch.write
}

// Whether one of the touches is of the resource.
fn is_among(what: &Resource, touches: &[Touch]) -> bool
    ensures { result ≡ list_any (λ o. same_resource o.what (shown_resource what.now)) (map shown_touch touches.now) }
{
    for touch in touches {
        if touch.what.is_same(what) {
            return true;
        }
    }
    false
}

// A hold of the touch.
#[inline(always)]
fn new_hold(t: TxnId, touch: &Touch) -> Hold
    ensures { result ≡ record { transaction = t; touch = touch.now } }
{
    Hold {
        transaction: t,
        touch: *touch,
    }
}

// One more hold, of the touch.
#[inline(never)]
fn push_copy(holds: &mut Vec<Hold>, t: TxnId, touch: &Touch)
    requires { length holds.old.items < vec_capacity holds.old }
    ensures items { holds.new.items ≡ holds.old.items ++ (record { transaction = t; touch = touch.now }) ∷ [] }
    ensures capacity { vec_capacity holds.new ≡ vec_capacity holds.old }
{
    // The check has to meet the type of what is copied in this function itself.
    let _what = &touch.what;
    holds.push_reserved(new_hold(t, touch));
}

// The same. Most holds are of items: one of these is made anew, which leaves out the room for a key
// that a copy takes along.
#[inline(always)]
fn push_hold(holds: &mut Vec<Hold>, t: TxnId, touch: &Touch)
    requires { length holds.old.items < vec_capacity holds.old }
    ensures items { holds.new.items ≡ holds.old.items ++ (record { transaction = t; touch = touch.now }) ∷ [] }
    ensures capacity { vec_capacity holds.new ≡ vec_capacity holds.old }
{
    match &touch.what {
        Resource::Item(name, index) => {
            let item = Touch {
                what: Resource::Item(*name, *index),
                write: touch.write,
            };
            holds.push_reserved(new_hold(t, &item));
        }
        _ => push_copy(holds, t, touch),
    }
}

// The hold with one more touch of its resource.
fn joined(hold: &Hold, touch: &Touch) -> Hold
    ensures { shown_hold result ≡ joined (shown_hold hold.now) (shown_touch touch.now) }
{
    Hold {
        transaction: hold.transaction,
        touch: Touch {
            what: hold.touch.what,
            write: hold.touch.write || touch.write,
        },
    }
}

// The lesser of two numbers, of which one may not be there.
fn lesser(n: u64, least: Option<u64>) -> u64
    ensures { Some result ≡ lesser n least }
{
    match least {
        Some(m) if m < n => m,
        _ => n,
    }
}

// The lesser of the number and the hold's transaction, where that is in the way.
fn least_with(t: TxnId, touch: &Touch, hold: &Hold, least: Option<u64>) -> Option<u64>
    ensures { result ≡ cond (blocks t.0 (shown_touch touch.now) (shown_hold hold.now)) (lesser hold.now.transaction.0 least) least }
{
    if is_blocked(t, touch, hold) {
        return Some(lesser(hold.transaction.0, least));
    }
    least
}

// This place, where it has the transaction's hold of the resource, and else the one that was found.
#[inline(never)]
fn place_with(
    t: TxnId,
    what: &Resource,
    hold: &Hold,
    at: usize,
    found: Option<usize>,
) -> Option<usize>
    ensures { result ≡ cond (is_pair same_resource t.0 (shown_resource what.now) (shown_hold hold.now)) (Some at) found }
{
    if is_pair(t, what, hold) {
        return Some(at);
    }
    found
}

// The first place that has a hold of the transaction.
fn first_hold(holds: &[Hold], t: TxnId) -> Option<usize>
    ensures { result ≡ first_place (λ h. h.transaction == t.0) (holds_of holds.now) }
{
    for (place, hold) in holds.iter().enumerate() {
        if hold.transaction == t {
            return Some(place);
        }
    }
    None
}

// Whether all holds from the first place on are the transaction's.
fn are_its(t: TxnId, holds: &[Hold], first: usize) -> bool
    ensures { result ≡ list_all (λ h. h.transaction == t.0) (map shown_hold (drop first holds.now)) }
{
    for i in first..holds.len() {
        if holds[i].transaction != t {
            return false;
        }
    }
    true
}

// A hold of a resource with these buckets goes to the end of its chains.
fn add_links(buckets: Buckets, by_resource: &mut Chains, by_name: &mut Chains)
    requires resources { length by_resource.old < 4096 }
    requires names { length by_name.old < 4096 }
    ensures resources { by_resource.new ≡ by_resource.old ++ buckets.resource ∷ [] }
    ensures names { by_name.new ≡ by_name.old ++ buckets.name ∷ [] }
{
    by_resource.push(buckets.resource);
    by_name.push(buckets.name);
}

// The chains of all holds, from those of so many first ones.
fn link_from(
    finder: &mut Finder,
    holds: &[Hold],
    first: usize,
    by_resource: &mut Chains,
    by_name: &mut Chains,
)
    requires few { length holds.now ≤ 4096 }
    requires within { first ≤ length holds.now }
    requires resources { by_resource.old ≡ resource_buckets (map shown_hold (take first holds.now)) }
    requires names { by_name.old ≡ name_buckets (map shown_hold (take first holds.now)) }
    ensures resources { by_resource.new ≡ resource_buckets (holds_of holds.now) }
    ensures names { by_name.new ≡ name_buckets (holds_of holds.now) }
{
    for i in first..holds.len() {
        add_links(finder.buckets(&holds[i].touch.what), by_resource, by_name);
    }
}

impl Table {
    // Nothing is held.
    pub fn new(alloc: Global) -> Result<Table, OutOfMemory>
        ensures { IfOk result (λ l. holds_of l.holds.items ≡ []) }
    {
        let Ok(holds) = Vec::with_capacity(alloc, MOST_HELD) else {
            return Err(OutOfMemory);
        };
        Ok(Table {
            holds,
            by_resource: Chains::new(alloc)?,
            by_name: Chains::new(alloc)?,
        })
    }

    // The last hold on the chain.
    #[inline(always)]
    fn last(&self, chain: Chain) -> Option<usize>
        requires { IsChain chain }
        ensures { result ≡ last_place (is_on chain) (holds_of self.now.holds.items) }
    {
        match chain {
            Chain::Resource(bucket) => self.by_resource.last(bucket),
            Chain::Name(bucket) => self.by_name.last(bucket),
            Chain::Every => self.holds.len().checked_sub(1),
        }
    }

    // The hold before this one on the chain.
    #[inline(always)]
    fn earlier(&self, chain: Chain, at: usize) -> Option<usize>
        requires within { at < length self.now.holds.items }
        requires on { (h : Hold) → is_on chain (shown_hold (slice_index_or self.now.holds.items at h)) ≡ true }
        ensures { result ≡ last_place (is_on chain) (map shown_hold (take at self.now.holds.items)) }
    {
        match chain {
            Chain::Resource(_) => self.by_resource.earlier(at),
            Chain::Name(_) => self.by_name.earlier(at),
            Chain::Every => at.checked_sub(1),
        }
    }

    // The lesser of the number and the least transaction on the chain that is in the way of the touch.
    #[inline(always)]
    fn least_along(&self, chain: Chain, t: TxnId, touch: &Touch, least: Option<u64>) -> Option<u64>
        requires { IsChain chain }
        ensures { result ≡ lesser_of least (least_of (λ h. is_on chain h && blocks t.0 (shown_touch touch.now) h) (holds_of self.now.holds.items)) }
    {
        let mut least = least;
        let mut at = self.last(chain);
        while let Some(place) = at {
            least = least_with(t, touch, &self.holds[place], least);
            at = self.earlier(chain, place);
        }
        least
    }

    // The same of the holds whose resource has the bucket.
    #[inline(never)]
    fn least_in(&self, bucket: usize, t: TxnId, touch: &Touch, least: Option<u64>) -> Option<u64>
        requires { bucket < 4096 }
        ensures { result ≡ lesser_of least (least_of (λ h. (resource_bucket h.touch.what == bucket) && blocks t.0 (shown_touch touch.now) h) (holds_of self.now.holds.items)) }
    {
        self.least_along(Chain::Resource(bucket), t, touch, least)
    }

    // The same: mostly no hold has the bucket, or the only one that has it is the transaction's own, as where
    // it made the object itself. These cost no walk.
    #[inline(always)]
    fn least_at(&self, bucket: usize, t: TxnId, touch: &Touch, least: Option<u64>) -> Option<u64>
        requires { bucket < 4096 }
        ensures { result ≡ lesser_of least (least_of (λ h. (resource_bucket h.touch.what == bucket) && blocks t.0 (shown_touch touch.now) h) (holds_of self.now.holds.items)) }
    {
        let Some(place) = self.last(Chain::Resource(bucket)) else {
            return least;
        };
        if is_own(t, &self.holds[place]) && self.earlier(Chain::Resource(bucket), place).is_none() {
            return least;
        }
        self.least_in(bucket, t, touch, least)
    }

    // The same of the holds whose name has the bucket.
    fn least_under(&self, bucket: usize, t: TxnId, touch: &Touch, least: Option<u64>) -> Option<u64>
        requires { bucket < 4096 }
        ensures { result ≡ lesser_of least (least_of (λ h. (name_bucket h.touch.what == bucket) && blocks t.0 (shown_touch touch.now) h) (holds_of self.now.holds.items)) }
    {
        self.least_along(Chain::Name(bucket), t, touch, least)
    }

    // The lesser of the number and the least transaction that is in the way of the touch. Only holds
    // on the chains that are walked here can be.
    #[inline(always)]
    fn least_in_way(
        &self,
        buckets: Buckets,
        t: TxnId,
        touch: &Touch,
        least: Option<u64>,
    ) -> Option<u64>
        requires { AreBucketsOf buckets (shown_resource touch.now.what) }
        ensures { result ≡ lesser_of least (least_of (blocks t.0 (shown_touch touch.now)) (holds_of self.now.holds.items)) }
    {
        match &touch.what {
            Resource::Names => self.least_along(Chain::Every, t, touch, least),
            Resource::AllOf(_) => {
                let least = self.least_under(buckets.name, t, touch, least);
                self.least_at(0, t, touch, least)
            }
            Resource::Keys(_) => self.least_under(buckets.name, t, touch, least),
            Resource::Name(_) => {
                let least = self.least_at(buckets.resource, t, touch, least);
                let least = self.least_at(whole_bucket(buckets.name), t, touch, least);
                self.least_at(0, t, touch, least)
            }
            Resource::Key(_, _) => {
                let least = self.least_at(buckets.resource, t, touch, least);
                let least = self.least_at(whole_bucket(buckets.name), t, touch, least);
                self.least_at(keys_bucket(buckets.name), t, touch, least)
            }
            Resource::Len(_) | Resource::Item(_, _) | Resource::Body(_) => {
                let least = self.least_at(buckets.resource, t, touch, least);
                self.least_at(whole_bucket(buckets.name), t, touch, least)
            }
        }
    }

    // The least transaction that is in the way of one of the touches.
    fn first_holder(&self, finder: &mut Finder, t: TxnId, wanted: &[Touch]) -> Option<u64>
        ensures { result ≡ first_holder conflict t.0 (map shown_touch wanted.now) (holds_of self.now.holds.items) }
    {
        let mut least = None;
        for touch in wanted {
            let buckets = finder.buckets(&touch.what);
            least = self.least_in_way(buckets, t, touch, least);
        }
        least
    }

    // The first place that has the transaction's hold of the resource with these buckets.
    #[inline(always)]
    fn place_of(&self, buckets: Buckets, t: TxnId, what: &Resource) -> Option<usize>
        requires { AreBucketsOf buckets (shown_resource what.now) }
        ensures { result ≡ first_place (is_pair same_resource t.0 (shown_resource what.now)) (holds_of self.now.holds.items) }
    {
        let bucket = buckets.resource;
        let mut found = None;
        let mut at = self.last(Chain::Resource(bucket));
        while let Some(place) = at {
            found = place_with(t, what, &self.holds[place], place, found);
            at = self.earlier(Chain::Resource(bucket), place);
        }
        found
    }

    // The buckets of the resource, and the first place that has the transaction's hold of it.
    #[inline(always)]
    fn spot(&self, finder: &mut Finder, t: TxnId, what: &Resource) -> Spot
        ensures buckets { AreBucketsOf result.buckets (shown_resource what.now) }
        ensures place { result.place ≡ first_place (is_pair same_resource t.0 (shown_resource what.now)) (holds_of self.now.holds.items) }
    {
        let buckets = finder.buckets(what);
        Spot {
            buckets,
            place: self.place_of(buckets, t, what),
        }
    }

    // Whether the transaction doesn't hold the resource, and none of the touches before is of it.
    fn is_new(&self, finder: &mut Finder, t: TxnId, what: &Resource, before: &[Touch]) -> bool
        ensures { result ≡ not (list_any (is_pair same_resource t.0 (shown_resource what.now)) (holds_of self.now.holds.items) || list_any (λ o. same_resource o.what (shown_resource what.now)) (map shown_touch before.now)) }
    {
        let spot = self.spot(finder, t, what);
        spot.place.is_none() && !is_among(what, before)
    }

    // How many pairs are new.
    fn count_new(&self, finder: &mut Finder, t: TxnId, wanted: &[Touch]) -> usize
        ensures { result + length self.now.holds.items ≡ length (hold_all same_resource t.0 (map shown_touch wanted.now) (holds_of self.now.holds.items)) }
    {
        let mut count = 0;
        for i in 0..wanted.len() {
            if self.is_new(finder, t, &wanted[i].what, &wanted[..i]) {
                count += 1;
            }
        }
        count
    }

    // A new hold, of a resource with these buckets, which the transaction doesn't hold. There is room, and
    // nobody is in the way.
    fn add(&mut self, buckets: Buckets, t: TxnId, touch: &Touch)
        requires place { first_place (is_pair same_resource t.0 (shown_touch touch.now).what) (holds_of self.old.holds.items) ≡ None }
        requires buckets { AreBucketsOf buckets (shown_touch touch.now).what }
        requires room { length self.old.holds.items < 4096 }
        requires clear { IsClear t.0 (shown_touch touch.now) (holds_of self.old.holds.items) }
        ensures { holds_of self.new.holds.items ≡ hold_one same_resource t.0 (shown_touch touch.now) (holds_of self.old.holds.items) }
    {
        add_links(buckets, &mut self.by_resource, &mut self.by_name);
        push_hold(&mut self.holds, t, touch);
    }

    // The transaction's hold at this place is joined by a touch of its resource. Nobody is in the way.
    fn join(&mut self, at: usize, t: TxnId, touch: &Touch)
        requires place { first_place (is_pair same_resource t.0 (shown_touch touch.now).what) (holds_of self.old.holds.items) ≡ Some at }
        requires clear { IsClear t.0 (shown_touch touch.now) (holds_of self.old.holds.items) }
        ensures { holds_of self.new.holds.items ≡ hold_one same_resource t.0 (shown_touch touch.now) (holds_of self.old.holds.items) }
    {
        let held = joined(&self.holds[at], touch);
        self.holds[at] = held;
    }

    // The transaction holds one more touch, of which this is the spot. There is room, and nobody is in
    // the way.
    #[inline(always)]
    fn hold_at(&mut self, spot: Spot, t: TxnId, touch: &Touch)
        requires spot { IsSpotOf spot t.0 (shown_touch touch.now) (holds_of self.old.holds.items) }
        requires room { length (hold_one same_resource t.0 (shown_touch touch.now) (holds_of self.old.holds.items)) ≤ 4096 }
        requires clear { IsClear t.0 (shown_touch touch.now) (holds_of self.old.holds.items) }
        ensures { holds_of self.new.holds.items ≡ hold_one same_resource t.0 (shown_touch touch.now) (holds_of self.old.holds.items) }
    {
        match spot.place {
            Some(at) => self.join(at, t, touch),
            None => self.add(spot.buckets, t, touch),
        }
    }

    // The transaction holds one more touch. There is room, and nobody is in the way.
    fn hold(&mut self, finder: &mut Finder, t: TxnId, touch: &Touch)
        requires room { length (hold_one same_resource t.0 (shown_touch touch.now) (holds_of self.old.holds.items)) ≤ 4096 }
        requires clear { IsClear t.0 (shown_touch touch.now) (holds_of self.old.holds.items) }
        ensures { holds_of self.new.holds.items ≡ hold_one same_resource t.0 (shown_touch touch.now) (holds_of self.old.holds.items) }
    {
        let spot = self.spot(finder, t, &touch.what);
        self.hold_at(spot, t, touch);
    }

    // A transaction asks for locks, of which it gets all or none.
    #[inline(never)]
    fn lock_all(&mut self, finder: &mut Finder, t: TxnId, wanted: &[Touch]) -> LockAnswer
        ensures answer { result ≡ lock_answer t.0 (map shown_touch wanted.now) (holds_of self.old.holds.items) }
        ensures after { holds_of self.new.holds.items ≡ locks_after t.0 (map shown_touch wanted.now) (holds_of self.old.holds.items) }
    {
        match self.first_holder(finder, t, wanted) {
            Some(holder) => LockAnswer::Busy(TxnId(holder)),
            None => {
                let new = self.count_new(finder, t, wanted);
                if new > MOST_HELD - self.holds.len() {
                    LockAnswer::LocksFull
                } else {
                    for touch in wanted {
                        self.hold(finder, t, touch);
                    }
                    LockAnswer::Granted
                }
            }
        }
    }

    // A transaction asks for one lock, of which this is the spot.
    #[inline(always)]
    fn lock_one(&mut self, spot: Spot, t: TxnId, touch: &Touch) -> LockAnswer
        requires { IsSpotOf spot t.0 (shown_touch touch.now) (holds_of self.old.holds.items) }
        ensures answer { result ≡ lock_answer t.0 (shown_touch touch.now ∷ []) (holds_of self.old.holds.items) }
        ensures after { holds_of self.new.holds.items ≡ locks_after t.0 (shown_touch touch.now ∷ []) (holds_of self.old.holds.items) }
    {
        if let Some(holder) = self.least_in_way(spot.buckets, t, touch, None) {
            return LockAnswer::Busy(TxnId(holder));
        }
        if spot.place.is_none() && self.holds.len() == MOST_HELD {
            return LockAnswer::LocksFull;
        }
        self.hold_at(spot, t, touch);
        LockAnswer::Granted
    }

    // Whether this place has the transaction's hold of what the touch is of, to write it where the touch does.
    #[inline(always)]
    fn is_held_at(&self, place: usize, t: TxnId, touch: &Touch) -> bool
        ensures { IsTrue result → is_held t.0 (shown_touch touch.now) (holds_of self.now.holds.items) ≡ true }
    {
        if place >= self.holds.len() {
            return false;
        }
        let hold = &self.holds[place];
        is_pair(t, &touch.what, hold) && is_enough(hold, touch)
    }

    // The same of the place where a touch with this index was held the last time, if that is known.
    #[inline(always)]
    fn is_still_held(&self, finder: &Finder, index: usize, t: TxnId, touch: &Touch) -> bool
        ensures { IsTrue result → is_held t.0 (shown_touch touch.now) (holds_of self.now.holds.items) ≡ true }
    {
        match finder.likely_place(index) {
            Some(place) => self.is_held_at(place, t, touch),
            None => false,
        }
    }

    // The spot of a touch with this index, unless the transaction holds what it is of already, to write it
    // where the touch does.
    #[inline(always)]
    fn spot_to_hold(
        &self,
        finder: &mut Finder,
        index: usize,
        t: TxnId,
        touch: &Touch,
    ) -> Option<Spot>
        ensures held { IfNone result (is_held t.0 (shown_touch touch.now) (holds_of self.now.holds.items) ≡ true) }
        ensures spot { IfSome result (λ s. IsSpotOf s t.0 (shown_touch touch.now) (holds_of self.now.holds.items)) }
    {
        if self.is_still_held(finder, index, t, touch) {
            return None;
        }
        let spot = self.spot(finder, t, &touch.what);
        match spot.place {
            Some(at) if is_enough(&self.holds[at], touch) => {
                finder.keep_place(index, at);
                None
            }
            _ => Some(spot),
        }
    }

    // A transaction asks for locks, of which it gets all or none. The touches from the first on that it
    // holds already change nothing, since nobody can be in their way.
    pub fn try_lock(&mut self, finder: &mut Finder, t: TxnId, wanted: &[Touch]) -> LockAnswer
        ensures answer { result ≡ lock_answer t.0 (map shown_touch wanted.now) (holds_of self.old.holds.items) }
        ensures after { holds_of self.new.holds.items ≡ locks_after t.0 (map shown_touch wanted.now) (holds_of self.old.holds.items) }
    {
        for i in 0..wanted.len() {
            if let Some(spot) = self.spot_to_hold(finder, i, t, &wanted[i]) {
                return match &wanted[i..] {
                    [touch] => self.lock_one(spot, t, touch),
                    rest => self.lock_all(finder, t, rest),
                };
            }
        }
        LockAnswer::Granted
    }

    // A transaction holds nothing any more.
    pub fn release(&mut self, finder: &mut Finder, t: TxnId)
        ensures { holds_of self.new.holds.items ≡ released t.0 (holds_of self.old.holds.items) }
    {
        let Some(first) = first_hold(self.holds.as_slice(), t) else {
            return;
        };
        self.by_resource.truncate(first);
        self.by_name.truncate(first);
        if are_its(t, self.holds.as_slice(), first) {
            self.holds.truncate(first);
            return;
        }
        self.holds.retain(|hold| hold.transaction != t);
        link_from(
            finder,
            self.holds.as_slice(),
            first,
            &mut self.by_resource,
            &mut self.by_name,
        );
    }
}
