// Scripts over a store whose engine is in memory.
use crate::small::{Measures, Small};
use sg_base::{MemSink, Name, TxnId};
use sg_bucket::Bytes;
use sg_model::{Key, Op, Reply};
use sg_ops::Ops;
use sg_store::{Refused, Store};
use sg_words::{Answer, Asked, Request, parse_request, write_answer};
use std::alloc::Global;

// The store's calls, of a store that serves as each over such an engine does.

fn begin(store: &mut Store<Small>) -> Result<TxnId, Refused> {
    store.begin()
}

fn perform(
    store: &mut Store<Small>,
    ops: &Ops,
    txn: TxnId,
    op: &Op<'_>,
    into: &mut [u8; 8192],
) -> Result<Reply, Refused> {
    store.perform(ops, txn, op, into)
}

fn commit(store: &mut Store<Small>, ops: &Ops, txn: TxnId) -> Result<(), Refused> {
    store.commit(ops, txn)
}

fn abort(store: &mut Store<Small>, ops: &Ops, txn: TxnId) -> Result<(), Refused> {
    store.abort(ops, txn)
}

fn keys(
    store: &mut Store<Small>,
    alloc: Global,
    txn: TxnId,
    name: Name,
) -> Result<Vec<Bytes>, Refused> {
    store.keys(alloc, txn, name)
}

fn list(store: &mut Store<Small>, alloc: Global, txn: TxnId) -> Result<Vec<Name>, Refused> {
    store.list(alloc, txn)
}

fn close(store: Store<Small>) {
    drop(store.close());
}

// A store, and which transaction has which name.
struct Trial {
    store: Store<Small>,
    names: Vec<(Name, TxnId)>,
}

impl Trial {
    // The number of the transaction of this name that began last, or one that none has.
    fn number(&self, name: Name) -> TxnId {
        let mut number = TxnId(0);
        for (other, txn) in &self.names {
            if *other == name {
                number = *txn;
            }
        }
        number
    }

    // The name of the transaction with this number, where it has one.
    fn name(&self, txn: TxnId) -> Option<Name> {
        for (name, other) in &self.names {
            if *other == txn {
                return Some(*name);
            }
        }
        None
    }

    // What a refusal is answered.
    fn refusal(&self, why: Refused) -> Answer {
        match why {
            Refused::NoTxn => Answer::NoTransaction,
            Refused::TooManyLive => Answer::TooManyLive,
            Refused::Busy(holder) => match self.name(holder) {
                Some(name) => Answer::Busy(name),
                None => Answer::BadSyntax,
            },
            Refused::LocksFull => Answer::LocksFull,
            Refused::Model(reason) => Answer::Refused(reason),
            Refused::NoSpace {
                free,
                reserved,
                need,
            } => Answer::NoSpace {
                free,
                reserved,
                need,
            },
            Refused::NoBands { free, need } => Answer::NoBands { free, need },
            Refused::LogEnd => Answer::LogEnd,
            Refused::Memory => Answer::Memory,
            Refused::DiskFault => Answer::Disk,
            Refused::Stopped => Answer::Stopped,
        }
    }

    fn done(&self, ended: Result<(), Refused>) -> Answer {
        match ended {
            Ok(()) => Answer::Said(Reply::Done),
            Err(why) => self.refusal(why),
        }
    }

    fn begins(&mut self, name: Name) -> Answer {
        match begin(&mut self.store) {
            Ok(txn) => match self.names.push((name, txn)) {
                Ok(()) => Answer::Said(Reply::Done),
                Err(_) => Answer::Memory,
            },
            Err(why) => self.refusal(why),
        }
    }

    fn keys(&mut self, alloc: Global, txn: TxnId, name: Name) -> Answer {
        let all = match keys(&mut self.store, alloc, txn, name) {
            Ok(all) => all,
            Err(why) => return self.refusal(why),
        };
        let mut found = Vec::new(alloc);
        for bytes in &all {
            let Some(key) = Key::new(bytes.bytes()) else {
                return Answer::BadSyntax;
            };
            if found.push(key).is_err() {
                return Answer::Memory;
            }
        }
        Answer::Keys(found)
    }

    // What a line is answered.
    fn answer(
        &mut self,
        alloc: Global,
        ops: &Ops,
        line: &[u8],
        values: &mut [u8; 32768],
        into: &mut [u8; 8192],
    ) -> Answer {
        let mut request = Request::List;
        let Asked::Of { name, words: _ } = parse_request(line, values, &mut request) else {
            return Answer::BadSyntax;
        };
        let txn = self.number(name);
        match &request {
            Request::Begin => self.begins(name),
            Request::Commit => {
                let ended = commit(&mut self.store, ops, txn);
                self.done(ended)
            }
            Request::Abort => {
                let ended = abort(&mut self.store, ops, txn);
                self.done(ended)
            }
            Request::Do(op) => match perform(&mut self.store, ops, txn, op, into) {
                Ok(reply) => Answer::Said(reply),
                Err(why) => self.refusal(why),
            },
            Request::Keys(table) => self.keys(alloc, txn, *table),
            Request::List => match list(&mut self.store, alloc, txn) {
                Ok(names) => Answer::Names(names),
                Err(why) => self.refusal(why),
            },
        }
    }
}

// Answers the lines of a script, and writes the replies.
fn answer_all(
    alloc: Global,
    ops: &Ops,
    trial: &mut Trial,
    script: &str,
    out: &mut MemSink,
) -> bool {
    let mut values = [0; 32_768];
    let mut into = [0; 8_192];
    for line in script.split('\n') {
        let answer = trial.answer(alloc, ops, line.as_bytes(), &mut values, &mut into);
        if write_answer(&answer, &into, out).is_err() {
            return false;
        }
    }
    true
}

/// Whether a script over such a store gets these replies.
pub fn is_answered(alloc: Global, measures: Measures, script: &str, replies: &str) -> bool {
    let Ok(ops) = Ops::shipped(alloc) else {
        return false;
    };
    let Ok(store) = Store::new(Small::new(alloc, measures), alloc) else {
        return false;
    };
    let mut out = MemSink::new(alloc, None);
    let mut trial = Trial {
        store,
        names: Vec::new(alloc),
    };
    let all = answer_all(alloc, &ops, &mut trial, script, &mut out);
    let Trial { store, names: _ } = trial;
    close(store);
    all && out.text() == replies.as_bytes()
}

// Begins until that is refused.
fn count_begins(store: &mut Store<Small>) -> Option<(u32, Refused)> {
    for i in 0..100 {
        if let Err(why) = begin(store) {
            return Some((i, why));
        }
    }
    None
}

// Pushes items of an array until that is refused, and then asks for its length.
fn count_pushes(store: &mut Store<Small>, ops: &Ops) -> Option<(u32, Refused, Reply)> {
    let mut into = [0; 8_192];
    let name = Name::new(b"a")?;
    let txn = begin(store).ok()?;
    let made = perform(store, ops, txn, &Op::MakeArray { name, size: 1 }, &mut into);
    if made.is_err() {
        return None;
    }
    for i in 0..5_000 {
        if let Err(why) = perform(store, ops, txn, &Op::Push { name, value: b"1" }, &mut into) {
            let length = perform(store, ops, txn, &Op::Len { name }, &mut into).ok()?;
            return Some((i, why, length));
        }
    }
    None
}

/// How many transactions begin in a store until one is refused, and why.
pub fn begins(alloc: Global, measures: Measures) -> Option<(u32, Refused)> {
    let Ok(mut store) = Store::new(Small::new(alloc, measures), alloc) else {
        return None;
    };
    let counted = count_begins(&mut store);
    close(store);
    counted
}

/// How many items of an array are pushed in one transaction until that is refused, why, and what it gets for the length then.
pub fn pushes(alloc: Global, measures: Measures) -> Option<(u32, Refused, Reply)> {
    let Ok(ops) = Ops::shipped(alloc) else {
        return None;
    };
    let Ok(mut store) = Store::new(Small::new(alloc, measures), alloc) else {
        return None;
    };
    let counted = count_pushes(&mut store, &ops);
    close(store);
    counted
}
