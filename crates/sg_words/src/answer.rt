ghost use Rattle.std.specs.Prelude.{◌≡◌, ◌≤◌, List, length};
ghost use Rattle.sg_words.specs.Answered.{shown_answer, line_of};
ghost use Rattle.sg_words.specs.Answers.{text_of_answer};
ghost use Rattle.sg_words.specs.Writing.{Writes};

use crate::reply::{reason_text, write_reply};
use crate::room::{write_no_bands, write_no_space};
use crate::several::{write_busy, write_words};
use sg_base::{Failed, Name, Sink};
use sg_model::{Key, Reason, Reply};

/// What a line is answered.
#[derive(Drop)]
pub enum Answer {
    /// Nothing: the line has no words, or is a remark.
    Silent,
    /// The line says nothing that is known.
    BadSyntax,
    /// The store has stopped in an earlier line.
    Stopped,
    /// The transaction isn't live.
    NoTransaction,
    /// The transaction is live already.
    IsLive,
    /// As many transactions are live as may be.
    TooManyLive,
    /// The transaction has no such mark.
    NoMark,
    /// The transaction has as many marks as it may.
    MarksFull,
    /// This transaction holds something that the line would touch in conflict.
    Busy(Name),
    /// With what the line touches more would be held than may be.
    LocksFull,
    /// Why nothing was done.
    Refused(Reason),
    /// Fewer pages are free than are reserved and needed.
    NoSpace { free: u32, reserved: u32, need: u32 },
    /// Fewer bands are free than are needed.
    NoBands { free: u32, need: u32 },
    /// The log has no room for more.
    LogEnd,
    /// There was not enough memory.
    Memory,
    /// The disk has failed, and the store has stopped.
    Disk,
    /// What was done.
    Said(Reply),
    /// The keys of a table, by their bytes.
    Keys(Vec<Key>),
    /// The names of all objects, by their bytes.
    Names(Vec<Name>),
}

// The line of an answer that has the same line each time, with its LF; of others nothing.
fn line_of(answer: &Answer) -> &'static [u8]
    ensures { result.now ≡ line_of answer.now }
{
    match answer {
        Answer::BadSyntax => b"error syntax\n",
        Answer::Stopped => b"error stopped\n",
        Answer::NoTransaction => b"error no-transaction\n",
        Answer::IsLive => b"error live\n",
        Answer::TooManyLive => b"error too-many-live\n",
        Answer::NoMark => b"error no-mark\n",
        Answer::MarksFull => b"error marks-full\n",
        Answer::LocksFull => b"error locks-full\n",
        Answer::Refused(reason) => reason_text(*reason),
        Answer::LogEnd => b"error log-end\n",
        Answer::Memory => b"error memory\n",
        Answer::Disk => b"error disk\n",
        Answer::Silent
        | Answer::Busy(_)
        | Answer::NoSpace { .. }
        | Answer::NoBands { .. }
        | Answer::Said(_)
        | Answer::Keys(_)
        | Answer::Names(_) => b"",
    }
}

// Writes a line in one call of the sink, and nothing where there is none.
fn write_line<K: Sink>(line: &[u8], out: &mut K) -> Result<(), Failed>
    ensures { Writes (K.taken out.old) line.now (K.taken out.new) (K.faults out.old) (K.faults out.new) result }
{
    if line.is_empty() {
        return Ok(());
    }
    out.write(line)
}

/// Writes the reply line with its LF, `bytes` having the bytes of a reply at their front. A silent
/// answer writes nothing. Keys and names may take several calls of the sink, and each other line is
/// handed to it in one. Where the sink fails, it took a front of the line.
pub fn write_answer<K: Sink>(answer: &Answer, bytes: &[u8], out: &mut K) -> Result<(), Failed>
    requires { length bytes.now ≤ 8192 }
    ensures { Writes (K.taken out.old) (text_of_answer (shown_answer bytes.now answer.now)) (K.taken out.new) (K.faults out.old) (K.faults out.new) result }
{
    match answer {
        Answer::Said(reply) => write_reply(reply, bytes, out),
        Answer::Busy(name) => write_busy(name.text(), out),
        Answer::NoSpace {
            free,
            reserved,
            need,
        } => write_no_space(*free, *reserved, *need, out),
        Answer::NoBands { free, need } => write_no_bands(*free, *need, out),
        Answer::Keys(keys) => write_words(keys.as_slice(), out),
        Answer::Names(names) => write_words(names.as_slice(), out),
        _ => write_line(line_of(answer), out),
    }
}
