// What objects come to.
ghost use Rattle.std.specs.Prelude.{◌≡◌, ◌+◌, ◌%◌, ◌^◌, sum};

/// How much objects have. A count that would pass 2^64 - 1 stands still there.
#[derive(Clone, Copy, Debug, PartialEq, Eq)]
pub struct Summary {
    /// How many objects there are.
    pub objects: u64,
    /// How many items the arrays have.
    pub items: u64,
    /// How many keys the tables have.
    pub entries: u64,
    /// How many bytes the blobs have.
    pub bytes: u64,
    /// The sum of all bytes of items, keys, values and blobs, modulo 2^64.
    pub sum: u64,
}

impl Summary {
    ghost use Rattle.std.specs.Prelude.{◌≡◌, []};
    ghost use Rattle.sg_lines.specs.Summed.{both, summary_of_all};

    /// That of no objects.
    pub fn none() -> Summary
        ensures { result ≡ summary_of_all [] }
    {
        Summary {
            objects: 0,
            items: 0,
            entries: 0,
            bytes: 0,
            sum: 0,
        }
    }

    /// Adds that of other objects.
    pub fn add(&mut self, other: Summary)
        ensures { self.new ≡ both self.old other }
    {
        self.objects = self.objects.saturating_add(other.objects);
        self.items = self.items.saturating_add(other.items);
        self.entries = self.entries.saturating_add(other.entries);
        self.bytes = self.bytes.saturating_add(other.bytes);
        self.sum = self.sum.wrapping_add(other.sum);
    }
}

/// The sum of some bytes, modulo 2^64.
pub fn sum_of(bytes: &[u8]) -> u64
    ensures { result ≡ sum bytes.now % 2 ^ 64 }
{
    let mut all: u64 = 0;
    'bytes: for byte in bytes {
        all = all.wrapping_add(u64::from(*byte));
    }
    all
}
