// std's readers and writers as a source and a sink: the edge to the outside. As a source and a sink they tell no contents,
// since a file or a terminal tells none. Clauses of their own say what is read of a reader, or added to a writer, that does.
ghost use Rattle.std.specs.Prelude.{◌≡◌, ◌≤◌, None, length, IfOk, OnOk, OnErr};
ghost use Rattle.std.specs.Io.KnownBytes.{Appends, ReadConsumes};
ghost use Rattle.sg_base.specs.Ends.{HasRisen};

use crate::{Failed, Sink, Source};
use std::io::{ErrorKind, Read, Write};

/// A reader of std as a source. It tells nothing of its text, and counts its failures. A read that a
/// signal interrupts is tried again, and is no failure.
#[derive(Drop)]
pub struct ReadSource<R: Read> {
    inner: R,
    faults: u64,
}

/// A writer of std as a sink. It tells nothing of what it took, and counts its failures. A write that
/// a signal interrupts is tried again, and one that took a part goes on with the rest: neither is a
/// failure.
#[derive(Drop)]
pub struct WriteSink<W: Write> {
    inner: W,
    faults: u64,
}

impl<R: Read> ReadSource<R> {
    pub fn new(inner: R) -> Self
        ensures inner { result.inner ≡ inner }
        ensures faults { result.faults ≡ 0 }
    {
        ReadSource { inner, faults: 0 }
    }
}

impl<W: Write> WriteSink<W> {
    pub fn new(inner: W) -> Self
        ensures inner { result.inner ≡ inner }
        ensures faults { result.faults ≡ 0 }
    {
        WriteSink { inner, faults: 0 }
    }
}

// A failure that is counted.
fn failure(faults: &mut u64) -> Failed
    ensures later { faults.old ≤ faults.new }
    ensures risen { HasRisen faults.old faults.new }
{
    *faults = faults.saturating_add(1);
    Failed
}

impl<R: Read> Source for ReadSource<R> {
    ghost left = { λ _. None };

    ghost faults = { λ s. s.faults };

    fn read(&mut self, into: &mut [u8]) -> Result<usize, Failed>
        ensures within { IfOk result (λ n. n ≤ length into.new) }
        ensures later { self.old.faults ≤ self.new.faults }
        ensures quiet { OnOk result (self.new.faults ≡ self.old.faults) }
        ensures failed { OnErr result (HasRisen self.old.faults self.new.faults) }
        // Of a reader that tells its bytes, these were taken, and 0 is the end.
        ensures bytes { ReadConsumes (R.remaining self.old.inner) (R.remaining self.new.inner) result into.new }
    {
        for _ in 0..u64::MAX {
            match self.inner.read(into) {
                Ok(n) => return Ok(n),
                Err(e) if e.kind() == ErrorKind::Interrupted => {}
                Err(_) => break,
            }
        }
        Err(failure(&mut self.faults))
    }
}

impl<W: Write> Sink for WriteSink<W> {
    ghost taken = { λ _. None };

    ghost faults = { λ s. s.faults };

    fn write(&mut self, bytes: &[u8]) -> Result<(), Failed>
        ensures later { self.old.faults ≤ self.new.faults }
        ensures quiet { OnOk result (self.new.faults ≡ self.old.faults) }
        ensures failed { OnErr result (HasRisen self.old.faults self.new.faults) }
        // Of a writer that tells its bytes, all of these were added.
        ensures added { OnOk result (Appends (W.contents self.old.inner) (W.contents self.new.inner) bytes.now) }
    {
        match self.inner.write_all(bytes) {
            Ok(()) => Ok(()),
            Err(_) => Err(failure(&mut self.faults)),
        }
    }
}
