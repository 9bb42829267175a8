ghost use Rattle.std.specs.Prelude.{◌≡◌, ◌≤◌, [], length};

use sg_base::put_text;
use std::default::Default;
use std::marker::Model;

/// The most bytes of a key and of a value.
pub(crate) const MOST: usize = 64;

/// A key or a value: at most 64 bytes, which contracts see as a list.
#[derive(Clone, Copy)]
pub(crate) struct Text {
    bytes: [u8; 64],
    len: usize,
}

impl Model for Text {
    ghost use Rattle.std.specs.Prelude.{List, ℕ};

    ghost Value = { List ℕ };

    ghost use Rattle.sg_index.specs.Text.{text_of, IsPadded, inside_of, text_back};

    ghost view = { text_of };

    ghost invariant = { IsPadded };

    ghost inverse = { inside_of };

    ghost inverse_ok = { text_back };
}

impl Text {
    /// These bytes.
    pub(crate) fn new(text: &[u8]) -> Text
        requires { length text.now ≤ 64 }
        ensures { result ≡ text.now }
    {
        let mut bytes = [0; MOST];
        let len = put_text(&mut bytes, 0, text);
        Text { bytes, len }
    }

    /// Its bytes.
    pub(crate) fn bytes(&self) -> &[u8]
        ensures bytes { result.now ≡ self.now }
        ensures few { length self.now ≤ 64 }
    {
        &self.bytes[..self.len]
    }
}

impl Default for Text {
    ghost is_default = { λ text. text ≡ [] };

    fn default() -> Text {
        Text {
            bytes: [0; MOST],
            len: 0,
        }
    }
}
