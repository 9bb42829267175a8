ghost use Rattle.std.specs.Prelude.{◌≡◌, ◌≤◌, ℕ, length, IfOk, OnOk, OnErr, IfSome};
ghost use Rattle.sg_base.specs.Ends.{HasRisen};
ghost use Rattle.sg_index.specs.Records.{Map, IsRecordKey, IsFound, Puts, Dels};

/// Where an index keeps its records: a map of keys to values of at most 2,048 bytes, and a count of refusals, which
/// never falls. A call that fails changes nothing, and the count rose.
pub trait Records {
    /// Why a call failed.
    type Fault;

    /// The map.
    ghost map: { Self → Map };

    /// How often a call was refused.
    ghost refusals: { Self → ℕ };

    /// Copies the value of a key to the front of the buffer, and answers how many bytes it has. The other bytes of
    /// the buffer are open then. The key has 1 to 255 bytes, and the buffer room for 8,192.
    fn find(&mut self, key: &[u8], into: &mut [u8]) -> Result<Option<usize>, Self::Fault>
        requires key { IsRecordKey key.now }
        requires room { 8192 ≤ length into.old }
        ensures found { IfOk result (λ found. IsFound (map self.old key.now) found into.new) }
        ensures few { IfOk result (λ found. IfSome found (λ n. n ≤ 2048)) }
        ensures kept { map self.new ≡ map self.old }
        ensures later { refusals self.old ≤ refusals self.new }
        ensures failed { OnErr result (HasRisen (refusals self.old) (refusals self.new)) };

    /// Maps the key, of 1 to 255 bytes, to this value of at most 2,048.
    fn put(&mut self, key: &[u8], value: &[u8]) -> Result<(), Self::Fault>
        requires key { IsRecordKey key.now }
        requires value { length value.now ≤ 2048 }
        ensures put { OnOk result (Puts (map self.old) key.now value.now (map self.new)) }
        ensures kept { OnErr result (map self.new ≡ map self.old) }
        ensures later { refusals self.old ≤ refusals self.new }
        ensures failed { OnErr result (HasRisen (refusals self.old) (refusals self.new)) };

    /// Maps the key, of 1 to 255 bytes, to nothing, also where it was mapped to nothing before.
    fn del(&mut self, key: &[u8]) -> Result<(), Self::Fault>
        requires key { IsRecordKey key.now }
        ensures gone { OnOk result (Dels (map self.old) key.now (map self.new)) }
        ensures kept { OnErr result (map self.new ≡ map self.old) }
        ensures later { refusals self.old ≤ refusals self.new }
        ensures failed { OnErr result (HasRisen (refusals self.old) (refusals self.new)) };
}
