ghost use Rattle.std.specs.Prelude.{◌≡◌, ◌<◌, ◌≤◌, ◌==◌, ◌-◌, [], ◌∷◌, ◌++◌, replicate, List, ℕ, length, IfNone, IfSome, MatchOption, IsTrue, true, false, IsSome, ◌↔◌, if◌then◌else◌, Some, None};
ghost use Rattle.std.specs.List.{list_all};
ghost use Rattle.std.specs.Ordering.{nat_cmp, as_partial_cmp};
ghost use Rattle.std.specs.Cmp.Lexicographic.{slice_cmp, pointwise, nat_list_cmp_total, nat_list_eq_equiv, texts_po, texts_ties};
ghost use Rattle.std.specs.Cmp.{partial_order_from_own_ties};
ghost use Rattle.std.specs.Cmp.Rules.{comparing};
ghost use Rattle.std.proofs.Common.{rules};
ghost use Rattle.sg_base.specs.Spelling.{is_letter, is_digit, is_name_byte, is_name};

use std::cmp::Ordering;
use std::marker::Model;

/// A name of at most 32 bytes, which contracts see as its text.
#[derive(Clone, Copy)]
pub struct Name {
    bytes: [u8; 32],
    len: usize,
}

impl Model for Name {
    ghost use Rattle.std.specs.Prelude.{List, ℕ};

    ghost Value = { List ℕ };

    ghost use Rattle.sg_base.specs.Padded.{text_of, IsPadded, inside_of, text_back};

    ghost view = { text_of };

    ghost invariant = { IsPadded };

    ghost inverse = { inside_of };

    ghost inverse_ok = { text_back };
}

fn is_letter(b: u8) -> bool
    ensures { result ≡ is_letter b }
{
    b.is_ascii_lowercase()
}

fn is_name_byte(b: u8) -> bool
    ensures { result ≡ is_name_byte b }
{
    is_letter(b) || b.is_ascii_digit() || b == b'_'
}

// The bytes of a text that may all stand in a name, and zeros behind them.
fn name_bytes(text: &[u8]) -> Option<[u8; 32]>
    requires { length text.now ≤ 32 }
    ensures { result ≡ (if list_all is_name_byte text.now then Some (text.now ++ replicate (32 - length text.now) 0) else None) }
{
    let mut bytes = [0; 32];
    for i in 0..text.len() {
        if !is_name_byte(text[i]) {
            return None;
        }
        bytes[i] = text[i];
    }
    Some(bytes)
}

impl Name {
    /// The name with this text, if it is one.
    pub fn new(text: &[u8]) -> Option<Name>
        ensures { result ≡ (if is_name text.now then Some text.now else None) }
    {
        if text.is_empty() || text.len() > 32 || !is_letter(text[0]) {
            return None;
        }
        let bytes = name_bytes(text)?;
        Some(Name {
            bytes,
            len: text.len(),
        })
    }

    /// Its text.
    pub fn text(&self) -> &[u8]
        ensures { result.now ≡ self.now }
    {
        &self.bytes[..self.len]
    }

    /// Tells a proof that its text is that of a name. It does nothing.
    pub fn tell_name(&self)
        ensures { IsTrue (is_name self.now) }
    {
        let _ = &self.bytes;
    }
}

impl PartialEq for Name {
    ghost eq = { pointwise ◌==◌ };

    ghost laws = { Prim.search (comparing, rules) };

    fn eq(&self, other: &Name) -> bool {
        self.text() == other.text()
    }
}

impl Eq for Name {
    ghost laws = { nat_list_eq_equiv };
}

impl PartialOrd for Name {
    ghost partial_cmp = { as_partial_cmp (slice_cmp nat_cmp) };

    ghost laws = { texts_po };

    fn partial_cmp(&self, other: &Name) -> Option<Ordering> {
        Some(self.cmp(other))
    }
}

impl Ord for Name {
    ghost cmp = { slice_cmp nat_cmp };

    ghost total = { nat_list_cmp_total };

    ghost matches_partial_cmp = { Prim.search (comparing, rules) };

    ghost matches_eq = { texts_ties };

    fn cmp(&self, other: &Name) -> Ordering {
        self.text().cmp(other.text())
    }
}
