use crate::Change;
use crate::kind::Kind;
use sg_base::Lsn;

/// What a record says, but for whose it is.
#[derive(Clone, Copy)]
pub enum Says<'a> {
    Begin,
    Changed(Change<'a>),
    TopEnd { undo_next: Lsn, note: &'a [u8] },
    PhysComp { undo_next: Lsn, change: Change<'a> },
    TopVoid { undo_next: Lsn },
    CompEnd { undo_next: Lsn },
    Save { mark: u16 },
    Commit,
    End,
    Checkpoint { estimate: Lsn, live: &'a [u8] },
}

impl<'a> Says<'a> {
    ghost use Rattle.std.specs.Prelude.{◌≡◌};
    ghost use Rattle.sg_record.specs.Records.{kind_of};
    ghost use Rattle.sg_record.specs.Shown.{shown_says};

    pub fn kind(&self) -> Kind
        ensures { result ≡ kind_of (shown_says self.now) }
    {
        match self {
            Says::Begin => Kind::Begin,
            Says::Changed(change) => change.kind(),
            Says::TopEnd { .. } => Kind::TopEnd,
            Says::PhysComp { .. } => Kind::PhysComp,
            Says::TopVoid { .. } => Kind::TopVoid,
            Says::CompEnd { .. } => Kind::CompEnd,
            Says::Save { .. } => Kind::Save,
            Says::Commit => Kind::Commit,
            Says::End => Kind::End,
            Says::Checkpoint { .. } => Kind::Checkpoint,
        }
    }
}
