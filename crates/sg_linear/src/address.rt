// One bucket of a table.
ghost use Rattle.std.specs.Prelude.{◌≡◌};
ghost use Rattle.sg_linear.specs.Address.{is_at};

use crate::extent::Extent;
use crate::fnv::fnv_1a;

/// A bucket of a table of this extent.
#[derive(Clone, Copy)]
pub struct Address {
    pub extent: Extent,
    pub bucket: u32,
}

impl Address {
    /// Whether the key belongs to the bucket.
    #[tactic(auto, unfolding(crate::specs::Address::is_at))]
    pub fn holds(&self, key: &[u8]) -> bool
        ensures { result ≡ is_at self.now key.now }
    {
        self.extent.bucket_of(fnv_1a(key)) == self.bucket
    }
}
