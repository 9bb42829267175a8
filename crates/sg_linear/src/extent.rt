ghost use Rattle.std.specs.Prelude.{◌≡◌, ◌+◌, ◌<◌, ◌≤◌, ◌^◌};

/// How far a table has grown: `2^level + split` buckets, of which those below `split` have been split at this level.
/// A table has at most 2,097,151 buckets.
#[derive(Clone, Copy)]
pub struct Extent {
    pub level: u8,
    pub split: u32,
    /// 2 to the level.
    pub low: u64,
    ghost power: { low ≡ 2 ^ level },
    ghost some: { 1 ≤ low },
    ghost most: { low ≤ 1048576 },
    ghost within: { split < low },
}

impl Extent {
    ghost use Rattle.std.specs.Prelude.{◌≢◌, ℕ, IfSome, IsSome};
    ghost use Rattle.sg_linear.specs.Extent.{shape_of, buckets_of, bucket_at, next_of, Divides};

    /// That of a table with one bucket.
    pub fn first() -> Extent
        ensures { shape_of result ≡ record { level = 0; split = 0 } }
    {
        Extent {
            level: 0,
            split: 0,
            low: 1,
        }
    }

    /// The one with this level and this split, if there is one: the level is at most 20 and the split below 2 to it.
    pub fn new(level: u8, split: u32) -> Option<Extent>
        ensures found { IfSome result (λ e. shape_of e ≡ record { level = level; split = split }) }
        ensures all { level ≤ 20 → split < 2 ^ level → IsSome result }
    {
        if level > 20 {
            return None;
        }
        let mut low: u64 = 1;
        for _doubled in 0..level {
            low *= 2;
        }
        if u64::from(split) >= low {
            return None;
        }
        Some(Extent { level, split, low })
    }

    /// How many buckets there are.
    pub fn buckets(&self) -> u32
        ensures { result ≡ buckets_of (shape_of self.now) }
    {
        self.low as u32 + self.split
    }

    /// The bucket of a key with this hash.
    pub fn bucket_of(&self, hash: u64) -> u32
        ensures value { result ≡ bucket_at (shape_of self.now) hash }
        ensures there { result < buckets_of (shape_of self.now) }
    {
        let bucket = hash % self.low;
        if bucket < u64::from(self.split) {
            (hash % (2 * self.low)) as u32
        } else {
            bucket as u32
        }
    }

    /// The next one, with one bucket more: that at `split` is divided between itself and the new one, which is the last.
    /// The level is at most 19.
    pub fn grown(&self) -> Extent
        requires { self.now.low ≤ 524288 }
        ensures value { shape_of result ≡ next_of (shape_of self.now) }
        ensures one_more { buckets_of (shape_of result) ≡ buckets_of (shape_of self.now) + 1 }
        ensures divides { (hash : ℕ) → Divides (shape_of self.now) (shape_of result) hash }
    {
        if u64::from(self.split) + 1 == self.low {
            return Extent {
                level: self.level + 1,
                split: 0,
                low: 2 * self.low,
            };
        }
        Extent {
            level: self.level,
            split: self.split + 1,
            low: self.low,
        }
    }
}
