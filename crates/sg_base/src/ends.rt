ghost use Rattle.std.specs.Prelude.{◌≡◌, ◌≤◌, List, ℕ, Option, length, IfOk, OnOk, OnErr};
ghost use Rattle.sg_base.specs.Ends.{HasRisen, Gives, Takes, TakesFront};

/// The call failed, and the count of faults of the object that was called rose.
#[derive(Clone, Copy, Debug, PartialEq, Eq)]
pub struct Failed;

/// There was not enough memory. What was called is as it was before.
#[derive(Clone, Copy, Debug, PartialEq, Eq)]
pub struct OutOfMemory;

/// Where a script comes from.
pub trait Source {
    /// The text that is left, where the source tells it.
    ghost left: { Self → Option (List ℕ) };

    /// How often the source has failed.
    ghost faults: { Self → ℕ };

    /// Fills a front of the buffer, and answers how many bytes. 0 for a buffer that isn't empty is
    /// the end. A call that fails takes nothing from what is left, and raises the count of faults,
    /// which every other call leaves as it was.
    fn read(&mut self, into: &mut [u8]) -> Result<usize, Failed>
        ensures within { IfOk result (λ n. n ≤ length into.new) }
        ensures given { IfOk result (λ n. Gives (left self.old) into.new n (left self.new)) }
        ensures kept { OnErr result (left self.new ≡ left self.old) }
        ensures later { faults self.old ≤ faults self.new }
        ensures quiet { OnOk result (faults self.new ≡ faults self.old) }
        ensures failed { OnErr result (HasRisen (faults self.old) (faults self.new)) };
}

/// Where replies go.
pub trait Sink {
    /// The bytes that the sink has taken, where it tells them.
    ghost taken: { Self → Option (List ℕ) };

    /// How often the sink has failed.
    ghost faults: { Self → ℕ };

    /// Takes all of the bytes. Where it fails, it took a front of them, and the count of faults rose,
    /// which every other call leaves as it was.
    fn write(&mut self, bytes: &[u8]) -> Result<(), Failed>
        ensures took { OnOk result (Takes (taken self.old) bytes.now (taken self.new)) }
        ensures cut { OnErr result (TakesFront (taken self.old) bytes.now (taken self.new)) }
        ensures later { faults self.old ≤ faults self.new }
        ensures quiet { OnOk result (faults self.new ≡ faults self.old) }
        ensures failed { OnErr result (HasRisen (faults self.old) (faults self.new)) };
}
