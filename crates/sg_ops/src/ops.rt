ghost use Rattle.std.specs.Prelude.{◌≤◌, ◌<◌, vec_len};
ghost use Rattle.sg_ops.specs.declared.TheConstants.{OPS_LIMIT};

use crate::entries::{
    RangeEntry, RecordEntry, entry_accepts, entry_redo, entry_render, entry_undo, find_range,
    find_record, range_code, record_code,
};
use crate::range::RangeBox;
use crate::record::RecordBox;
use crate::shipped::fill;
use crate::{OPS_LIMIT, RANGE_LIMIT};
use std::alloc::Global;

// The code of `fill`, for which there is no box.
const FILL_CODE: u16 = 1;

/// Why an operation was not registered, or an `Ops` not made.
#[derive(Debug, Clone, Copy, PartialEq, Eq)]
pub enum OpsError {
    /// An operation of this sort has the code already.
    CodeTaken,
    /// As many operations of this sort are registered as an `Ops` holds.
    TableFull,
    /// Memory ran out.
    Memory,
}

/// The registered operations: at most `OPS_LIMIT` record operations and as many range operations,
/// each under a code of its own in its sort. The range operation `fill` is always there, under
/// code 1: byte `position mod length` of the argument, and 0 for an empty one.
#[derive(Drop)]
pub struct Ops {
    records: Vec<RecordEntry>,
    // All but `fill`.
    ranges: Vec<RangeEntry>,
    ghost few_records: { vec_len records ≤ OPS_LIMIT },
    ghost few_ranges: { vec_len ranges < OPS_LIMIT },
}

impl Ops {
    ghost use Rattle.std.specs.Prelude.{◌≡◌, ◌≢◌, ◌↔◌, ◌+◌, None, Some, length, IsTrue, is_some, MatchOption, IfOk, OnOk, OnErr, IsErrOf, IfErr, IsOk};
    ghost use Rattle.sg_ops.specs.Laws.{IsLawful};
    ghost use Rattle.sg_ops.specs.Table.{table_of_boxes, record_of, range_of, record_at, range_at, accepts_of, after_of, before_of, rendered, fresh_table, shipped_table, AddsRecord, AddsRange};

    /// An `Ops` that has `fill` alone. It answers no error but `Memory`.
    pub fn new(alloc: Global) -> Result<Ops, OpsError>
        ensures ok { IfOk result (λ ops. table_of_boxes record_meaning range_meaning ops ≡ fresh_table) }
        ensures err { IfErr result (λ e. e ≡ OpsError.Memory) }
        ensures made { IsOk result }
    {
        Ok(Ops {
            records: Vec::new(alloc),
            ranges: Vec::new(alloc),
        })
    }

    /// An `Ops` that has the five operations that come with the crate, without a box for any: `add`,
    /// `xor` and `rotate`, and `fill` and `ramp`. It answers no error but `Memory`.
    pub fn shipped(alloc: Global) -> Result<Ops, OpsError>
        ensures ok { IfOk result (λ ops. table_of_boxes record_meaning range_meaning ops ≡ shipped_table) }
        ensures err { IfErr result (λ e. e ≡ OpsError.Memory) }
    {
        let shipped = [RecordEntry::Add, RecordEntry::Xor, RecordEntry::Rotate];
        let Ok(records) = Vec::from_array(alloc, shipped) else {
            return Err(OpsError::Memory);
        };
        let Ok(ranges) = Vec::from_array(alloc, [RangeEntry::Ramp]) else {
            return Err(OpsError::Memory);
        };
        Ok(Ops { records, ranges })
    }

    /// Registers a record operation. Where it cannot, the table is unchanged and `op` is dropped:
    /// `CodeTaken` where a record operation has its code, else `TableFull` where `OPS_LIMIT` are
    /// registered, else `Memory`.
    pub fn register_record(&mut self, op: RecordBox) -> Result<(), OpsError>
        ensures ok { let t = table_of_boxes record_meaning range_meaning in
            OnOk result (AddsRecord (t self.old) (t self.new) (record_meaning op)) }
        ensures err { let t = table_of_boxes record_meaning range_meaning in
            OnErr result (t self.new ≡ t self.old) }
        ensures taken { let t = table_of_boxes record_meaning range_meaning self.old in
            IsErrOf result OpsError.CodeTaken ↔ IsTrue (is_some (record_at t (record_meaning op).code)) }
        ensures full { let t = table_of_boxes record_meaning range_meaning self.old in
            IsErrOf result OpsError.TableFull
            ↔ ((record_at t (record_meaning op).code ≡ None) × (length t.records ≡ OPS_LIMIT)) }
    {
        let entry = RecordEntry::Brought(op);
        if self.has_record(record_code(&entry)) {
            return Err(OpsError::CodeTaken);
        }
        if self.records.len() == OPS_LIMIT {
            return Err(OpsError::TableFull);
        }
        match self.records.push(entry) {
            Ok(()) => Ok(()),
            Err(_) => Err(OpsError::Memory),
        }
    }

    /// Registers a range operation. Where it cannot, the table is unchanged and `op` is dropped:
    /// `CodeTaken` where a range operation has its code, as `fill` has 1, else `TableFull` where
    /// `OPS_LIMIT` are registered, `fill` among them, else `Memory`.
    pub fn register_range(&mut self, op: RangeBox) -> Result<(), OpsError>
        ensures ok { let t = table_of_boxes record_meaning range_meaning in
            OnOk result (AddsRange (t self.old) (t self.new) (range_meaning op)) }
        ensures err { let t = table_of_boxes record_meaning range_meaning in
            OnErr result (t self.new ≡ t self.old) }
        ensures taken { let t = table_of_boxes record_meaning range_meaning self.old in
            IsErrOf result OpsError.CodeTaken ↔ IsTrue (is_some (range_at t (range_meaning op).code)) }
        ensures full { let t = table_of_boxes record_meaning range_meaning self.old in
            IsErrOf result OpsError.TableFull
            ↔ ((range_at t (range_meaning op).code ≡ None) × (length t.ranges ≡ OPS_LIMIT)) }
    {
        let entry = RangeEntry::Brought(op);
        if self.has_range(range_code(&entry)) {
            return Err(OpsError::CodeTaken);
        }
        if self.ranges.len() == OPS_LIMIT - 1 {
            return Err(OpsError::TableFull);
        }
        match self.ranges.push(entry) {
            Ok(()) => Ok(()),
            Err(_) => Err(OpsError::Memory),
        }
    }

    /// Whether a record operation has this code.
    pub fn has_record(&self, code: u16) -> bool
        ensures { result ≡ is_some (record_at (table_of_boxes record_meaning range_meaning self.now) code) }
    {
        self.record(code).is_some()
    }

    /// Whether a range operation has this code; one has 1.
    #[tactic(auto, unfolding(crate::specs::Table::range_at))]
    pub fn has_range(&self, code: u16) -> bool
        ensures { result ≡ is_some (range_at (table_of_boxes record_meaning range_meaning self.now) code) }
    {
        code == FILL_CODE || self.range(code).is_some()
    }

    /// Whether the record operation with this code accepts the item and the argument.
    #[tactic(auto, unfolding(crate::specs::Table::accepts_of))]
    pub fn accepts(&self, code: u16, item: &[u8], arg: &[u8]) -> bool
        requires { let t = table_of_boxes record_meaning range_meaning self.now in
            IsTrue (is_some (record_at t code)) }
        ensures { let t = table_of_boxes record_meaning range_meaning self.now in
            result ≡ accepts_of (record_at t code) item.now arg.now }
    {
        match self.record(code) {
            Some(op) => entry_accepts(op, item, arg),
            None => false,
        }
    }

    /// Does the record operation with this code to an item that it accepts with this argument. The
    /// item keeps its length.
    #[tactic(auto, unfolding(crate::specs::Table::accepts_of, crate::specs::Table::after_of))]
    pub fn redo(&self, code: u16, item: &mut [u8], arg: &[u8])
        requires { let t = table_of_boxes record_meaning range_meaning self.now in
            IsTrue (accepts_of (record_at t code) item.old arg.now) }
        ensures { let t = table_of_boxes record_meaning range_meaning self.now in
            item.new ≡ after_of (record_at t code) item.old arg.now }
    {
        match self.record(code) {
            Some(op) => entry_redo(op, item, arg),
            None => {}
        }
    }

    /// Undoes the record operation with this code, on any item with any argument. The item keeps
    /// its length.
    #[tactic(auto, unfolding(crate::specs::Table::before_of))]
    pub fn undo(&self, code: u16, item: &mut [u8], arg: &[u8])
        requires { let t = table_of_boxes record_meaning range_meaning self.now in
            IsTrue (is_some (record_at t code)) }
        ensures { let t = table_of_boxes record_meaning range_meaning self.now in
            item.new ≡ before_of (record_at t code) item.old arg.now }
    {
        match self.record(code) {
            Some(op) => entry_undo(op, item, arg),
            None => {}
        }
    }

    /// Fills `into` with the bytes that the range operation with this code gives for `arg` from the
    /// position `pos` on, whatever stood there. The positions stay below `RANGE_LIMIT`.
    #[tactic(auto, unfolding(crate::specs::Table::range_at))]
    pub fn render(&self, code: u16, pos: u32, arg: &[u8], into: &mut [u8])
        requires registered { let t = table_of_boxes record_meaning range_meaning self.now in
            IsTrue (is_some (range_at t code)) }
        requires within { pos + length into.old ≤ RANGE_LIMIT }
        ensures { let t = table_of_boxes record_meaning range_meaning self.now in
            into.new ≡ rendered (range_at t code) arg.now pos (length into.old) }
    {
        if code == FILL_CODE {
            fill(pos, arg, into);
        } else if let Some(op) = self.range(code) {
            entry_render(op, pos, arg, into);
        }
    }

    /// Tells a proof that every registered operation keeps its law. It runs no code.
    pub fn laws(&self)
        ensures { IsLawful (table_of_boxes record_meaning range_meaning self.now) }
    {}

    // What is registered under this code.
    fn record(&self, code: u16) -> Option<&RecordEntry>
        ensures { let found = record_at (table_of_boxes record_meaning range_meaning self.now) code in
            MatchOption result (found ≡ None) (λ entry. found ≡ Some (record_of record_meaning entry.now)) }
    {
        find_record(&self.records, code)
    }

    // What is registered under this code, which is not that of `fill`.
    fn range(&self, code: u16) -> Option<&RangeEntry>
        requires { code ≢ FILL_CODE }
        ensures { let found = range_at (table_of_boxes record_meaning range_meaning self.now) code in
            MatchOption result (found ≡ None) (λ entry. found ≡ Some (range_of range_meaning entry.now)) }
    {
        find_range(&self.ranges, code)
    }
}
