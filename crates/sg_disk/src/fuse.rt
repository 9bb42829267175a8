ghost use Rattle.std.specs.Prelude.{◌≡◌, ◌≤◌, ◌<◌, ◌+◌, ℕ, min, Bool, Option, Some, None, IfSome, IsTrue, true, false};
ghost use Rattle.std.proofs.Props.{props};
ghost use Rattle.sg_disk.specs.Disk.{FULL, refusing, PassesOne, Spent};

use crate::{Area, Disk, Failed};
use std::marker::{Brand, PhantomData};

/// How a fuse began, for proofs alone. A type of this kind marks one fuse, so that code which is
/// generic over its disk hands back that fuse and no other.
pub trait Origin {
    /// Whether it is known how the fuse began.
    ghost known: { Bool };

    /// How many calls it passes at most, if there is such a number.
    ghost passes: { Option ℕ };

    /// The calls that the disk inside had counted.
    ghost calls: { ℕ };

    /// The faults that it had counted.
    ghost faults: { ℕ };
}

impl Origin for Brand {
    ghost known = { true };

    ghost passes = { None };

    ghost calls = { 0 };

    ghost faults = { 0 };
}

/// Marks the fuses of which it isn't known how they began.
pub struct Unmarked;

impl Origin for Unmarked {
    ghost known = { false };

    ghost passes = { None };

    ghost calls = { 0 };

    ghost faults = { 0 };
}

/// A disk that stops: it passes a number of calls to the disk inside, and fails each later one
/// without touching that disk. Its contents are those of the disk inside. Its counts of calls and of
/// faults are the inner counts plus the calls that it refused.
#[derive(Drop)]
pub struct Fuse<D: Disk, O: Origin = Unmarked> {
    inner: D,
    passes: Option<u64>,
    passed: u64,
    refused: u64,
    origin: PhantomData<O>,
    ghost within: { IfSome passes (λ n. passed ≤ n) } by { Prim.hlevel props },
    ghost at_end: { 0 < refused → passes ≡ Some passed } by { Prim.hlevel props },
    ghost same: { IsTrue O.known → passes ≡ O.passes } by { Prim.hlevel props },
    ghost most: { IsTrue O.known → (D.view inner).calls ≤ O.calls + passed } by { Prim.hlevel props },
    ghost exact: { IsTrue O.known → (D.view inner).calls < FULL → (D.view inner).calls ≡ O.calls + passed } by { Prim.hlevel props },
    ghost later: { IsTrue O.known → O.faults ≤ (D.view inner).faults } by { Prim.hlevel props },
}

impl<D: Disk> Fuse<D> {
    /// A fuse over `inner` that passes so many calls. `None` passes all.
    pub fn new(inner: D, passes: Option<u64>) -> Self
        ensures inner { result.inner ≡ inner }
        ensures passes { result.passes ≡ passes }
        ensures refused { result.refused ≡ 0 }
        ensures view { ⟦<Fuse<D> as Disk>⟧.view result ≡ refusing (D.view inner) 0 }
    {
        Fuse::marked(inner, passes)
    }
}

impl<D: Disk, O: Origin> Fuse<D, O> {
    /// The same, with a mark that says how it began.
    pub fn marked(inner: D, passes: Option<u64>) -> Self
        requires passes { IsTrue O.known → passes ≡ O.passes }
        requires calls { IsTrue O.known → (D.view inner).calls ≡ O.calls }
        requires faults { IsTrue O.known → (D.view inner).faults ≡ O.faults }
        ensures inner { result.inner ≡ inner }
        ensures passes { result.passes ≡ passes }
        ensures refused { result.refused ≡ 0 }
        ensures view { ⟦<Fuse<D, O> as Disk>⟧.view result ≡ refusing (D.view inner) 0 }
    {
        Fuse {
            inner,
            passes,
            passed: 0,
            refused: 0,
            origin: PhantomData,
        }
    }

    /// How many calls it has refused. A count of 2^64 - 1 stays.
    pub fn refused(&self) -> u64
        ensures refused { result ≡ self.now.refused }
        ensures view { ⟦<Fuse<D, O> as Disk>⟧.view self.now ≡ refusing (D.view self.now.inner) result }
    {
        self.refused
    }

    /// The disk inside, as the calls that passed left it.
    pub fn into_inner(self) -> D
        ensures inner { result ≡ self.inner }
        ensures view { ⟦<Fuse<D, O> as Disk>⟧.view self ≡ refusing (D.view result) self.refused }
        ensures spent { IsTrue O.known → Spent O.passes O.calls (D.view result).calls self.refused }
        ensures later { IsTrue O.known → O.faults ≤ (D.view result).faults }
    {
        self.inner
    }
}

// Whether the next call passes. It is counted as passed, or as refused.
fn next_passes(passes: Option<u64>, passed: &mut u64, refused: &mut u64) -> bool
    requires { IfSome passes (λ n. passed.old ≤ n) }
    ensures passed { IsTrue result → PassesOne passes passed.old passed.new }
    ensures same { IsTrue result → refused.new ≡ refused.old }
    ensures at_end { result ≡ false → passes ≡ Some passed.old }
    ensures still { result ≡ false → passed.new ≡ passed.old }
    ensures counted { result ≡ false → refused.new ≡ min (refused.old + 1) FULL }
    ensures no_fewer { refused.old ≤ refused.new }
{
    match passes {
        Some(n) if *passed == n => {
            *refused = refused.saturating_add(1);
            false
        }
        _ => {
            *passed = passed.saturating_add(1);
            true
        }
    }
}

impl<D: Disk, O: Origin> Disk for Fuse<D, O> {
    ghost told = { D.told };

    ghost view = { λ f. refusing (D.view f.inner) f.refused };

    ghost reads = { λ f told a i. D.reads f.inner told a i };

    fn read_at(&mut self, area: Area, at: u64, into: &mut [u8]) -> Result<(), Failed> {
        if next_passes(self.passes, &mut self.passed, &mut self.refused) {
            self.inner.read_at(area, at, into)
        } else {
            Err(Failed)
        }
    }

    fn write_at(&mut self, area: Area, at: u64, bytes: &[u8]) -> Result<(), Failed> {
        if next_passes(self.passes, &mut self.passed, &mut self.refused) {
            self.inner.write_at(area, at, bytes)
        } else {
            Err(Failed)
        }
    }

    fn drop_from(&mut self, area: Area, at: u64) -> Result<(), Failed> {
        if next_passes(self.passes, &mut self.passed, &mut self.refused) {
            self.inner.drop_from(area, at)
        } else {
            Err(Failed)
        }
    }

    fn sync(&mut self, area: Area) -> Result<(), Failed> {
        if next_passes(self.passes, &mut self.passed, &mut self.refused) {
            self.inner.sync(area)
        } else {
            Err(Failed)
        }
    }
}
