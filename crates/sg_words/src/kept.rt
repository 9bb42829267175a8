ghost use Rattle.std.specs.Prelude.{◌≡◌, ◌≤◌, length, take, true, not};
ghost use Rattle.std.specs.List.{join_with_byte};
ghost use Rattle.sg_words.specs.Parse.{words_of};
ghost use Rattle.sg_words.specs.Spoken.{IsJoined, has_gap};

use crate::buffer::append;
use crate::split::next_word;

// Whether no two spaces stand side by side. It looks at all bytes, so that several can be looked at at
// once.
fn has_no_gap(text: &[u8]) -> bool
    ensures { result ≡ not (has_gap text.now) }
{
    let mut no_gap = true;
    for i in 1..text.len() {
        no_gap &= (text[i - 1] != b' ') | (text[i] != b' ');
    }
    no_gap
}

// Whether the words stand joined: with one space between each two, and none before the first or behind
// the last.
fn are_joined(text: &[u8]) -> bool
    ensures { result ≡ true → join_with_byte 32 (words_of text.now) ≡ text.now }
{
    if text.is_empty() || text[0] == b' ' || text[text.len() - 1] == b' ' {
        return false;
    }
    has_no_gap(text)
}

// Puts words with one space between each two at the front of a buffer.
fn join(text: &[u8], into: &mut [u8]) -> usize
    requires { length text.now ≤ length into.old }
    ensures within { result ≤ length text.now }
    ensures words { take result into.new ≡ join_with_byte 32 (words_of text.now) }
{
    let Some((word, after)) = next_word(text) else {
        return 0;
    };
    let mut end = append(into, 0, word);
    let mut rest = after;
    'words: while let Some((word, after)) = next_word(rest) {
        let at = append(into, end, b" ");
        end = append(into, at, word);
        rest = after;
    }
    end
}

/// The words that a log keeps of a line, where they stand in it.
#[derive(Clone, Copy)]
pub struct Words<'a> {
    pub(crate) text: &'a [u8],
    // whether they are known to stand joined
    pub(crate) are_joined: bool,
    ghost known: { are_joined ≡ true → IsJoined text.now },
}

impl<'a> Words<'a> {
    /// The words with one space between each two. Where they stand so in the line, this is a part of it,
    /// and else the front of a buffer.
    pub fn joined(&self, into: &'a mut [u8]) -> &'a [u8]
        requires { length self.now.text.now ≤ length into.old }
        ensures within { length result.now ≤ length self.now.text.now }
        ensures words { result.now ≡ join_with_byte 32 (words_of self.now.text.now) }
    {
        if self.are_joined || are_joined(self.text) {
            return self.text;
        }
        let size = join(self.text, into);
        &into[..size]
    }
}
