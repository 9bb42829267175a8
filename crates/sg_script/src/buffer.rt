ghost use Rattle.std.specs.Prelude.{◌≡◌, ◌+◌, ◌≤◌, ◌==◌, [], ◌++◌, List, length, take};
ghost use Rattle.sg_script.specs.Kept.{MOST_KEPT};

use std::marker::Model;

/// The bytes of a line that hasn't ended yet, as far as they are needed to tell what it says: at
/// most one more than a line may have. Contracts see it as these bytes.
#[derive(Drop)]
pub struct LineBuffer {
    bytes: [u8; 32769],
    len: usize,
}

impl Model for LineBuffer {
    ghost use Rattle.std.specs.Prelude.{List, ℕ};

    ghost Value = { List ℕ };

    ghost use Rattle.sg_script.specs.Buffers.{front_of, IsFront};

    ghost view = { front_of };

    ghost invariant = { IsFront };
}

impl LineBuffer {
    /// Without bytes.
    pub fn new() -> Self
        ensures { result ≡ [] }
    {
        LineBuffer {
            bytes: [0; 32769],
            len: 0,
        }
    }

    // Adds bytes that fit.
    fn add(&mut self, part: &[u8])
        requires { length self.old + length part.now ≤ MOST_KEPT }
        ensures { self.new ≡ self.old ++ part.now }
    {
        let end = self.len + part.len();
        self.bytes[self.len..end].copy_from_slice(part);
        self.len = end;
    }

    /// Adds bytes at the end, as many as are kept.
    pub fn push(&mut self, part: &[u8])
        ensures { self.new ≡ take MOST_KEPT (self.old ++ part.now) }
    {
        let room = 32769 - self.len;
        let count = room.min(part.len());
        self.add(&part[..count]);
    }

    /// Takes all bytes away.
    pub fn clear(&mut self)
        ensures { self.new ≡ [] }
    {
        self.len = 0;
    }

    /// Whether there are no bytes.
    pub fn is_empty(&self) -> bool
        ensures { result ≡ (length self.now == 0) }
    {
        self.len == 0
    }

    /// The bytes.
    pub fn bytes(&self) -> &[u8]
        ensures { result.now ≡ self.now }
    {
        &self.bytes[..self.len]
    }
}
