ghost use Rattle.std.specs.Prelude.{◌≡◌, ◌==◌, ℕ, List, length, if◌then◌else◌, Some, None};
ghost use Rattle.std.specs.Ordering.{nat_cmp, as_partial_cmp};
ghost use Rattle.std.specs.Cmp.Lexicographic.{slice_cmp, pointwise, nat_list_cmp_total, nat_list_eq_equiv, texts_po, texts_ties};
ghost use Rattle.std.specs.Cmp.Rules.{comparing};
ghost use Rattle.std.proofs.Common.{rules};
ghost use Rattle.sg_model.specs.Keys.{is_table_key};

use std::cmp::Ordering;
use std::marker::Model;

/// The most bytes of a key.
pub const MOST_KEY_BYTES: usize = 128;

/// A key of a table, 1 to 128 bytes in place, which contracts see as its bytes.
#[derive(Clone, Copy)]
pub struct Key {
    bytes: [u8; 128],
    len: usize,
}

impl Model for Key {
    ghost use Rattle.std.specs.Prelude.{List, ℕ};

    ghost Value = { List ℕ };

    ghost use Rattle.sg_model.specs.Padded.{bytes_of, IsPadded, inside_of, bytes_back};

    ghost view = { bytes_of };

    ghost invariant = { IsPadded };

    ghost inverse = { inside_of };

    ghost inverse_ok = { bytes_back };
}

impl Key {
    /// The key of these bytes, where there are 1 to 128 of them.
    pub fn new(bytes: &[u8]) -> Option<Key>
        ensures { result ≡ (if is_table_key bytes.now then Some bytes.now else None) }
    {
        if bytes.is_empty() || bytes.len() > MOST_KEY_BYTES {
            return None;
        }
        let mut padded = [0; 128];
        padded[..bytes.len()].copy_from_slice(bytes);
        Some(Key {
            bytes: padded,
            len: bytes.len(),
        })
    }

    /// Its bytes.
    pub fn bytes(&self) -> &[u8]
        ensures { result.now ≡ self.now }
    {
        &self.bytes[..self.len]
    }
}

impl PartialEq for Key {
    ghost eq = { pointwise ◌==◌ };

    ghost laws = { Prim.search (comparing, rules) };

    fn eq(&self, other: &Key) -> bool {
        self.bytes() == other.bytes()
    }
}

impl Eq for Key {
    ghost laws = { nat_list_eq_equiv };
}

impl PartialOrd for Key {
    ghost partial_cmp = { as_partial_cmp (slice_cmp nat_cmp) };

    ghost laws = { texts_po };

    fn partial_cmp(&self, other: &Key) -> Option<Ordering> {
        Some(self.cmp(other))
    }
}

impl Ord for Key {
    ghost cmp = { slice_cmp nat_cmp };

    ghost total = { nat_list_cmp_total };

    ghost matches_partial_cmp = { Prim.search (comparing, rules) };

    ghost matches_eq = { texts_ties };

    fn cmp(&self, other: &Key) -> Ordering {
        self.bytes().cmp(other.bytes())
    }
}
