// An engine in memory that has objects without pages and tells nothing: what the store's calls are tried on.
ghost use Rattle.std.specs.Prelude.{◌≡◌, ◌≤◌, ◌<◌, ◌+◌, IfErr, IfOk, OnErr, OnOk, length};
ghost use Rattle.std.proofs.Math.Nat.{le-add_right};
ghost use Rattle.sg_base.specs.Ends.{HasRisen};
ghost use Rattle.sg_tests_store.specs.Small.{nothing, shown};

use sg_base::{Lsn, Name, TxnId};
use sg_bucket::Bytes;
use sg_model::{Op, Reason, Reply, Touches};
use sg_ops::Ops;
use sg_plain::{Changes, Objects};
use sg_space::{ListFault, SpaceFault, UndoNote};
use sg_store::{Engine, Lists, Needed, ObjFault};
use std::alloc::Global;
use std::mem::replace;

/// What an engine has besides its objects.
#[derive(Clone, Copy)]
pub struct Measures {
    /// the number of the log's next byte
    pub tail: u64,
    /// so many pages and bands are free
    pub pages: u32,
    pub bands: u32,
    /// and so many does each operation need that changes something
    pub needs: Needed,
    /// so many records can be appended, and the next one fails
    pub records: u64,
}

// What a transaction has done.
#[derive(Drop)]
struct Writer {
    txn: TxnId,
    changes: Changes,
    changed: bool,
}

impl Writer {
    fn new(alloc: Global) -> Writer {
        Writer {
            txn: TxnId(0),
            changes: Changes::new(alloc),
            changed: false,
        }
    }
}

/// Objects, and what two transactions have done to them. No others change any.
#[derive(Drop)]
pub struct Small {
    alloc: Global,
    objects: Objects,
    first: Writer,
    second: Writer,
    measures: Measures,
    faults: u64,
}

impl Small {
    /// No objects.
    pub fn new(alloc: Global, measures: Measures) -> Small {
        Small {
            alloc,
            objects: Objects::empty(alloc),
            first: Writer::new(alloc),
            second: Writer::new(alloc),
            measures,
            faults: 0,
        }
    }

    // A call fails.
    fn fault(&mut self) -> SpaceFault
        ensures answer { result ≡ SpaceFault.Disk }
        ensures measures { self.new.measures ≡ self.old.measures }
        ensures later { self.old.faults ≤ self.new.faults }
        ensures risen { HasRisen self.old.faults self.new.faults }
    {
        self.faults = self.faults.saturating_add(1);
        SpaceFault::Disk
    }

    // A record is appended, or that fails. Its number is that of the log's next byte before.
    fn append(&mut self) -> Result<(), SpaceFault>
        ensures pages { self.new.measures.pages ≡ self.old.measures.pages }
        ensures bands { self.new.measures.bands ≡ self.old.measures.bands }
        ensures tail { self.old.measures.tail ≤ self.new.measures.tail }
        ensures one { self.new.measures.tail ≤ self.old.measures.tail + 1 }
        ensures above { OnOk result (self.old.measures.tail < self.new.measures.tail) }
        ensures later { self.old.faults ≤ self.new.faults }
        ensures quiet { OnOk result (self.new.faults ≡ self.old.faults) }
        ensures disk { IfErr result (λ e. e ≡ SpaceFault.Disk) }
        ensures risen { OnErr result (HasRisen self.old.faults self.new.faults) }
    {
        if self.measures.records == 0 || self.measures.tail == u64::MAX {
            return Err(self.fault());
        }
        self.measures.records -= 1;
        self.measures.tail += 1;
        Ok(())
    }

    // The writer with this number has a place.
    fn place(&mut self, txn: TxnId)
        ensures measures { self.new.measures ≡ self.old.measures }
        ensures faults { self.new.faults ≡ self.old.faults }
    {
        if self.first.txn.0 == 0 {
            self.first.txn = txn;
        } else if self.second.txn.0 == 0 {
            self.second.txn = txn;
        }
    }

    // It has none any more.
    fn vacate(&mut self, txn: TxnId)
        ensures measures { self.new.measures ≡ self.old.measures }
        ensures faults { self.new.faults ≡ self.old.faults }
    {
        if self.first.txn == txn {
            drop(replace(&mut self.first, Writer::new(self.alloc)));
        } else if self.second.txn == txn {
            drop(replace(&mut self.second, Writer::new(self.alloc)));
        }
    }

    // Whether something stands that it did.
    fn has_changed(&self, txn: TxnId) -> bool {
        (self.first.txn == txn && self.first.changed)
            || (self.second.txn == txn && self.second.changed)
    }
}

impl Engine for Small {
    ghost basis = { λ z. nothing };

    ghost view = { λ s. shown s.measures.tail s.measures.pages s.measures.bands s.faults };

    ghost waiting = { λ s. 0 };

    ghost unwritten = { λ s lsn. ⊥ };

    ghost marked = { λ s lsn estimate. ⊥ };

    ghost ends_at = { λ c lsn estimate. ⊥ };

    ghost opened = { λ s. shown s.measures.tail s.measures.pages s.measures.bands s.faults };

    ghost waits = { λ s. le-add_right s.measures.tail 65541 };

    ghost leaves = { λ s t z from means told. absurd told };

    fn tail(&self) -> Lsn {
        self.measures.tail
    }

    fn start(&self) -> Lsn {
        0
    }

    fn free_pages(&self) -> u32 {
        self.measures.pages
    }

    fn free_bands(&self) -> u32 {
        self.measures.bands
    }

    fn begin(&mut self) -> Result<TxnId, SpaceFault> {
        let number = self.measures.tail;
        match self.append() {
            Ok(()) => {
                self.place(TxnId(number));
                Ok(TxnId(number))
            }
            Err(fault) => Err(fault),
        }
    }

    fn act(&mut self, txn: TxnId) {}

    fn end_action(&mut self, txn: TxnId, note: &UndoNote) -> Result<(), SpaceFault> {
        self.append()
    }

    fn undo_step(&mut self, txn: TxnId, into: &mut UndoNote) -> Result<Option<Lsn>, SpaceFault> {
        into.set(b"u");
        if self.has_changed(txn) {
            Ok(Some(0))
        } else {
            Ok(None)
        }
    }

    fn next_undo(&mut self, txn: TxnId) -> Result<Option<Lsn>, SpaceFault> {
        if self.has_changed(txn) {
            Ok(Some(0))
        } else {
            Ok(None)
        }
    }

    fn broken(&mut self) -> SpaceFault {
        self.fault()
    }

    // All that the transaction did is taken back at once.
    fn end_undo(&mut self, txn: TxnId, after: Lsn) -> Result<(), SpaceFault> {
        let alloc = self.alloc;
        let back = if self.first.txn == txn {
            self.first.changed = false;
            self.objects.take_back(alloc, &mut self.first.changes)
        } else {
            self.second.changed = false;
            self.objects.take_back(alloc, &mut self.second.changes)
        };
        if back.is_err() {
            return Err(self.fault());
        }
        self.append()
    }

    fn commit(&mut self, txn: TxnId) -> Result<(), SpaceFault> {
        self.append()
    }

    fn end(&mut self, txn: TxnId) -> Result<(), SpaceFault> {
        self.vacate(txn);
        self.append()
    }

    fn flush(&mut self) -> Result<(), SpaceFault> {
        Ok(())
    }

    fn checkpoint(&mut self) -> Result<(), SpaceFault> {
        self.append()
    }
}

impl sg_store::Objects for Small {
    fn touches(&mut self, op: &Op<'_>, into: &mut Touches) -> Result<(), SpaceFault> {
        self.objects.touches(op, into);
        Ok(())
    }

    fn needs(&mut self, ops: &Ops, op: &Op<'_>) -> Result<Needed, ObjFault> {
        if let Some(reason) = self.objects.refusal(ops, op) {
            return Err(ObjFault::Model(reason));
        }
        if op.is_changing() {
            Ok(self.measures.needs)
        } else {
            Ok(Needed {
                pages: 0,
                bands: 0,
                reserve: 0,
            })
        }
    }

    fn perform(
        &mut self,
        ops: &Ops,
        txn: TxnId,
        op: &Op<'_>,
        into: &mut [u8],
        note: &mut UndoNote,
    ) -> Result<Reply, ObjFault> {
        let alloc = self.alloc;
        if !op.is_changing() {
            note.set(b"");
            return match self.objects.apply(alloc, ops, op, into) {
                Ok(Ok(reply)) => Ok(reply),
                Ok(Err(reason)) => Err(ObjFault::Model(reason)),
                Err(_) => Err(ObjFault::Space(self.fault())),
            };
        }
        note.set(b"u");
        let done = if self.first.txn == txn {
            self.first.changed = true;
            self.objects
                .change(alloc, ops, op, into, &mut self.first.changes)
        } else {
            self.second.changed = true;
            self.objects
                .change(alloc, ops, op, into, &mut self.second.changes)
        };
        match done {
            Ok(Ok(reply)) => Ok(reply),
            Ok(Err(reason)) => Err(ObjFault::Model(reason)),
            Err(_) => Err(ObjFault::Space(self.fault())),
        }
    }

    fn reverse(&mut self, ops: &Ops, note: &UndoNote) -> Result<(), SpaceFault> {
        Ok(())
    }

    fn free_next(
        &mut self,
        ops: &Ops,
        by: Option<TxnId>,
        note: &mut UndoNote,
    ) -> Result<bool, SpaceFault> {
        Ok(false)
    }
}

impl Lists for Small {
    fn touches_keys(&mut self, name: Name, into: &mut Touches) -> Result<(), SpaceFault> {
        self.objects.keys_touches(name, into);
        Ok(())
    }

    fn keys(&mut self, alloc: Global, name: Name) -> Result<Result<Vec<Bytes>, Reason>, ListFault> {
        let keys = match self.objects.keys(alloc, name) {
            Ok(Ok(keys)) => keys,
            Ok(Err(reason)) => return Ok(Err(reason)),
            Err(_) => return Err(ListFault::Memory),
        };
        let mut all = Vec::new(alloc);
        for key in &keys {
            let Ok(copy) = Bytes::copy_of(alloc, key.bytes()) else {
                return Err(ListFault::Memory);
            };
            if all.push(copy).is_err() {
                return Err(ListFault::Memory);
            }
        }
        Ok(Ok(all))
    }

    fn list(&mut self, alloc: Global) -> Result<Vec<Name>, ListFault> {
        match self.objects.list(alloc) {
            Ok(names) => Ok(names),
            Err(_) => Err(ListFault::Memory),
        }
    }
}
