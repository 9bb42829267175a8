ghost use Rattle.std.specs.Prelude.{◌≡◌, ◌≤◌, List, length};
ghost use Rattle.sg_words.specs.Answers.{text_of_answer, text_of_words};
ghost use Rattle.sg_words.specs.Writing.{Writes};
ghost use Rattle.sg_session.specs.Answered.{shown};

use sg_base::{Failed, Sink};
use sg_bucket::Bytes;
use sg_words::{Answer, add_word, finish, put_count, write_answer};

/// What a line is answered.
#[derive(Drop)]
pub enum Answered {
    /// What any line but a list of keys may be.
    Line(Answer),
    /// The keys of a table, in the order of their bytes.
    Keys(Vec<Bytes>),
}

// Writes the line that says how many keys there are, and the keys as they are printed.
#[inline(never)]
fn write_keys<K: Sink>(keys: &[Bytes], out: &mut K) -> Result<(), Failed>
    ensures { Writes (K.taken out.old) (text_of_words (λ key. key) keys.now) (K.taken out.new) (K.faults out.old) (K.faults out.new) result }
{
    let mut waiting = [0u8; 8192];
    let mut end = put_count(&mut waiting, keys.len() as u64);
    'keys: for key in keys {
        match add_word(&mut waiting, end, key.bytes(), out) {
            Ok(more) => end = more,
            Err(_) => return Err(Failed),
        }
    }
    finish(&mut waiting, end, out)
}

/// Writes the reply line with its LF, `bytes` having the bytes of a reply at their front. A silent answer
/// writes nothing. Where the sink fails, it took a front of the line.
pub fn write_answered<K: Sink>(answer: &Answered, bytes: &[u8], out: &mut K) -> Result<(), Failed>
    requires { length bytes.now ≤ 8192 }
    ensures { Writes (K.taken out.old) (text_of_answer (shown bytes.now answer.now)) (K.taken out.new) (K.faults out.old) (K.faults out.new) result }
{
    match answer {
        Answered::Line(answer) => write_answer(answer, bytes, out),
        Answered::Keys(keys) => write_keys(keys.as_slice(), out),
    }
}
