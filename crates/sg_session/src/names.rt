// The names of the live transactions.
ghost use Rattle.std.specs.Prelude.{◌≡◌, ◌≤◌, ◌<◌, ◌==◌, ◌∷◌, ◌++◌, [], ℕ, List, length, nat_le, IfOk, IsSome, vec_capacity};
ghost use Rattle.std.specs.Option.{option_map};
ghost use Rattle.std.specs.Str.{bytes_eq};
ghost use Rattle.sg_serial.specs.Runs.{without};
ghost use Rattle.sg_run.specs.Run.{live_named};
ghost use Rattle.sg_words.specs.Answered.{shown_answer};
ghost use Rattle.sg_run.specs.Named.{answer_to, name_of};
ghost use Rattle.sg_words.specs.Answers.Answer.{Busy};
ghost use Rattle.sg_store.specs.Refusals.{said_refusal, said_why};
ghost use Rattle.sg_session.specs.Lines.{answer_mark};
ghost use Rattle.sg_session.specs.Names.{live_of, all_live, live_numbered, first_live, IsNamed, IsNamedAtMark};
ghost use Rattle.sg_session.specs.Causes.{trouble_in, trouble_of, trouble_at_mark};
ghost use Rattle.sg_session.specs.Causes.Trouble.{NoTrouble};

use sg_base::{Name, OutOfMemory, TxnId};
use sg_store::{MarkRefused, Refused};
use sg_words::Answer;
use std::alloc::Global;

/// The most transactions that are live at a time.
const MOST_LIVE: usize = 64;

/// A live transaction: its name and its number.
#[derive(Clone, Copy)]
pub struct Named {
    pub name: Name,
    pub txn: TxnId,
}

/// The live transactions in order of begin, with room for 64 of them.
#[derive(Drop)]
pub struct Names {
    all: Vec<Named>,
    ghost room: { 64 ≤ vec_capacity all },
}

// Whether the transaction has this name.
fn is_named(n: &Named, name: Name) -> bool
    ensures { result ≡ bytes_eq name (live_of n.now).name }
{
    name == n.name
}

// Whether the transaction has this number.
fn is_numbered(n: &Named, txn: TxnId) -> bool
    ensures { result ≡ (live_of n.now).transaction == txn.0 }
{
    n.txn == txn
}

impl Names {
    /// None. `OutOfMemory` where memory is refused.
    pub fn new(alloc: Global) -> Result<Names, OutOfMemory>
        ensures { IfOk result (λ n. all_live n.all.items ≡ []) }
    {
        match Vec::with_capacity(alloc, MOST_LIVE) {
            Ok(all) => Ok(Names { all }),
            Err(_) => Err(OutOfMemory),
        }
    }

    /// The transaction with this name.
    pub fn named(&self, name: Name) -> Option<Named>
        ensures { option_map live_of result ≡ live_named (all_live self.now.all.items) name }
    {
        for n in &self.all {
            if is_named(n, name) {
                return Some(*n);
            }
        }
        None
    }

    /// The transaction with this number.
    pub fn numbered(&self, txn: TxnId) -> Option<Named>
        ensures { option_map live_of result ≡ live_numbered (all_live self.now.all.items) txn.0 }
    {
        for n in &self.all {
            if is_numbered(n, txn) {
                return Some(*n);
            }
        }
        None
    }

    /// The one that began first.
    pub fn first(&self) -> Option<Named>
        ensures { option_map live_of result ≡ first_live (all_live self.now.all.items) }
    {
        match self.all.as_slice() {
            [first, ..] => Some(*first),
            [] => None,
        }
    }

    /// Whether as many are live as may be.
    pub fn is_full(&self) -> bool
        ensures { result ≡ nat_le 64 (length (all_live self.now.all.items)) }
    {
        self.all.len() >= MOST_LIVE
    }

    /// One more, the last to begin, where there is room. Takes no memory.
    pub fn add(&mut self, name: Name, txn: TxnId)
        requires { length (all_live self.old.all.items) < 64 }
        ensures { all_live self.new.all.items ≡ all_live self.old.all.items ++ record { name = name; transaction = txn.0; marks = [] } ∷ [] }
    {
        self.all.push_reserved(Named { name, txn });
    }

    /// The transaction with this number isn't live any more.
    pub fn remove(&mut self, txn: TxnId)
        ensures { all_live self.new.all.items ≡ without txn.0 (all_live self.old.all.items) }
    {
        self.all.retain(|n| n.txn != txn);
    }

    // The answer to a line that this transaction is in the way of. Only live ones hold anything, so that
    // one has its number.
    fn busy(&self, holder: TxnId) -> Answer
        ensures named { IsSome (live_numbered (all_live self.now.all.items) holder.0) → (into : List ℕ) → shown_answer into result ≡ Busy (name_of (all_live self.now.all.items) holder.0) }
        ensures trouble { (into : List ℕ) → trouble_in (shown_answer into result) ≡ NoTrouble }
    {
        match self.numbered(holder) {
            Some(other) => Answer::Busy(other.name),
            None => Answer::LocksFull,
        }
    }

    /// What a call that was refused is answered, in the words of a script.
    pub fn answer_to(&self, why: Refused) -> Answer
        ensures says { IsNamed (all_live self.now.all.items) why → (into : List ℕ) → shown_answer into result ≡ answer_to (all_live self.now.all.items) (said_refusal why) }
        ensures trouble { (into : List ℕ) → trouble_in (shown_answer into result) ≡ trouble_of why }
    {
        match why {
            Refused::NoTxn => Answer::NoTransaction,
            Refused::TooManyLive => Answer::TooManyLive,
            Refused::Busy(holder) => self.busy(holder),
            Refused::LocksFull => Answer::LocksFull,
            Refused::Model(reason) => Answer::Refused(reason),
            Refused::NoSpace {
                free,
                reserved,
                need,
            } => Answer::NoSpace {
                free,
                reserved,
                need,
            },
            Refused::NoBands { free, need } => Answer::NoBands { free, need },
            Refused::LogEnd => Answer::LogEnd,
            Refused::Memory => Answer::Memory,
            Refused::DiskFault => Answer::Disk,
            Refused::Stopped => Answer::Stopped,
        }
    }

    /// What a call on marks that was refused is answered, in the words of a script.
    pub fn answer_to_mark(&self, why: MarkRefused) -> Answer
        ensures says { IsNamedAtMark (all_live self.now.all.items) why → (into : List ℕ) → shown_answer into result ≡ answer_mark (all_live self.now.all.items) (said_why why) }
        ensures trouble { (into : List ℕ) → trouble_in (shown_answer into result) ≡ trouble_at_mark why }
    {
        match why {
            MarkRefused::NoMark => Answer::NoMark,
            MarkRefused::MarksFull => Answer::MarksFull,
            MarkRefused::Store(why) => self.answer_to(why),
        }
    }
}
