use crate::kind::Kind;
use crate::says::Says;
use sg_base::{BandNo, Lsn, PageNo, TxnId};

/// A change of a page.
#[derive(Clone, Copy)]
pub struct PageChange<'a> {
    pub page: PageNo,
    /// 1 formats the page, 2 puts a cell, 3 removes one, 4 sets one, 5 sets the links, 6 does a
    /// registered operation to a cell, and 7 undoes it.
    pub operation: u8,
    /// The slot, for the operations 2 to 4, 6 and 7.
    pub slot: u16,
    /// The code of the registered operation, for 6 and 7.
    pub code: u16,
    /// What the operation takes away: the page's kind, the cell's bytes, or the links.
    pub before: &'a [u8],
    /// What it brings: the page's kind, the cell's bytes, the links, or the argument.
    pub after: &'a [u8],
}

/// A change of `count` bytes of a band, from byte `at` on, to the bytes `after`.
#[derive(Clone, Copy)]
pub struct BandBytes<'a> {
    pub band: BandNo,
    pub at: u32,
    pub count: u32,
    pub before: &'a [u8],
    pub after: &'a [u8],
}

/// A change of `count` bytes of a band, from byte `at` on, to those that the registered range
/// operation with this code gives for the argument, from `position` on.
#[derive(Clone, Copy)]
pub struct BandOp<'a> {
    pub band: BandNo,
    pub at: u32,
    pub count: u32,
    pub code: u16,
    pub position: u32,
    pub arg: &'a [u8],
    /// As many as `count`, or none where zeros are filled in.
    pub before: &'a [u8],
}

/// A change of a page or of a part of a band.
#[derive(Clone, Copy)]
pub enum Change<'a> {
    Page(PageChange<'a>),
    SegWrite(BandBytes<'a>),
    SegOp(BandOp<'a>),
}

/// A record of the log. Each but a checkpoint names its transaction and that transaction's record
/// before it, 0 for its first.
#[derive(Clone, Copy)]
pub enum Rec<'a> {
    /// A transaction begins. Its number is this record's own [`Lsn`].
    Begin {
        txn: TxnId,
        prev: Lsn,
    },
    /// A page changes.
    Page {
        txn: TxnId,
        prev: Lsn,
        change: PageChange<'a>,
    },
    /// A part of a band changes.
    SegWrite {
        txn: TxnId,
        prev: Lsn,
        change: BandBytes<'a>,
    },
    /// A part of a band changes by a registered operation.
    SegOp {
        txn: TxnId,
        prev: Lsn,
        change: BandOp<'a>,
    },
    /// An action has ended. The note, at most 2,400 bytes, says how it is undone, and `undo_next` is
    /// the record at which undoing goes on.
    TopEnd {
        txn: TxnId,
        prev: Lsn,
        undo_next: Lsn,
        note: &'a [u8],
    },
    /// A change of an action is taken off by this one, which has no bytes before.
    PhysComp {
        txn: TxnId,
        prev: Lsn,
        undo_next: Lsn,
        change: Change<'a>,
    },
    /// All changes of an action were taken off.
    TopVoid {
        txn: TxnId,
        prev: Lsn,
        undo_next: Lsn,
    },
    /// An action was undone.
    CompEnd {
        txn: TxnId,
        prev: Lsn,
        undo_next: Lsn,
    },
    /// A mark, 1 to 16, to which the transaction can go back.
    Save {
        txn: TxnId,
        prev: Lsn,
        mark: u16,
    },
    /// The transaction is committed.
    Commit {
        txn: TxnId,
        prev: Lsn,
    },
    /// The transaction has ended.
    End {
        txn: TxnId,
        prev: Lsn,
    },
    /// Where the log is to be read from, and the live transactions: 16 bytes each, its number and the
    /// number of its last record, of at most 64.
    Checkpoint {
        estimate: Lsn,
        live: &'a [u8],
    },
}

/// Why some bytes don't begin with a record. The first that holds is told, in the order: `Short` of
/// the header, `BadKind`, `Short` of the stated length, `BadField`.
#[derive(Clone, Copy)]
pub enum RecError {
    /// The bytes end before the header or the stated length does.
    Short,
    /// There is no such kind.
    BadKind(u8),
    /// The field at this offset is the first one outside its range. The length of the whole record,
    /// at offset 1, is outside its range where it isn't that of the fields.
    BadField(u32),
}

impl<'a> Change<'a> {
    ghost use Rattle.std.specs.Prelude.{◌≡◌};
    ghost use Rattle.sg_record.specs.Changes.{change_kind};
    ghost use Rattle.sg_record.specs.Records.Says.{Changed};
    ghost use Rattle.sg_record.specs.Shown.{shown, shown_change, by};

    // The kind of the record that holds it.
    pub(crate) fn kind(&self) -> Kind
        ensures { result ≡ change_kind (shown_change self.now) }
    {
        match self {
            Change::Page(_) => Kind::Page,
            Change::SegWrite(_) => Kind::SegWrite,
            Change::SegOp(_) => Kind::SegOp,
        }
    }

    /// The record of the change, of this transaction and with this previous record.
    pub fn logged(self, txn: TxnId, prev: Lsn) -> Rec<'a>
        ensures { shown result ≡ by txn.0 prev (Changed (shown_change self.entry)) }
    {
        match self {
            Change::Page(change) => Rec::Page { txn, prev, change },
            Change::SegWrite(change) => Rec::SegWrite { txn, prev, change },
            Change::SegOp(change) => Rec::SegOp { txn, prev, change },
        }
    }
}

impl<'a> Rec<'a> {
    ghost use Rattle.std.specs.Prelude.{◌≡◌};
    ghost use Rattle.sg_record.specs.Shown.{shown, shown_says};

    // Whose it is, and that transaction's record before it. A checkpoint is nobody's.
    fn owner(&self) -> (TxnId, Lsn)
        ensures transaction { result.0.0 ≡ (shown self.now).transaction }
        ensures previous { result.1 ≡ (shown self.now).previous }
    {
        match *self {
            Rec::Begin { txn, prev }
            | Rec::Page { txn, prev, .. }
            | Rec::SegWrite { txn, prev, .. }
            | Rec::SegOp { txn, prev, .. }
            | Rec::TopEnd { txn, prev, .. }
            | Rec::PhysComp { txn, prev, .. }
            | Rec::TopVoid { txn, prev, .. }
            | Rec::CompEnd { txn, prev, .. }
            | Rec::Save { txn, prev, .. }
            | Rec::Commit { txn, prev }
            | Rec::End { txn, prev } => (txn, prev),
            Rec::Checkpoint { .. } => (TxnId(0), 0),
        }
    }

    /// The transaction, which for a checkpoint is 0.
    pub fn txn(&self) -> TxnId
        ensures { result.0 ≡ (shown self.now).transaction }
    {
        self.owner().0
    }

    /// The transaction's record before it, 0 for its first and for a checkpoint.
    pub fn prev(&self) -> Lsn
        ensures { result ≡ (shown self.now).previous }
    {
        self.owner().1
    }

    // What it says, but for whose it is.
    pub(crate) fn says(&self) -> Says<'a>
        ensures { shown_says result ≡ (shown self.now).says }
    {
        match *self {
            Rec::Begin { .. } => Says::Begin,
            Rec::Page { change, .. } => Says::Changed(Change::Page(change)),
            Rec::SegWrite { change, .. } => Says::Changed(Change::SegWrite(change)),
            Rec::SegOp { change, .. } => Says::Changed(Change::SegOp(change)),
            Rec::TopEnd {
                undo_next,
                note,
                ..
            } => Says::TopEnd { undo_next, note },
            Rec::PhysComp {
                undo_next,
                change,
                ..
            } => Says::PhysComp { undo_next, change },
            Rec::TopVoid { undo_next, .. } => Says::TopVoid { undo_next },
            Rec::CompEnd { undo_next, .. } => Says::CompEnd { undo_next },
            Rec::Save { mark, .. } => Says::Save { mark },
            Rec::Commit { .. } => Says::Commit,
            Rec::End { .. } => Says::End,
            Rec::Checkpoint { estimate, live } => Says::Checkpoint { estimate, live },
        }
    }
}
