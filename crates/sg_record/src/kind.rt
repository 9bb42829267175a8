ghost use Rattle.std.specs.Prelude.{◌≡◌};
ghost use Rattle.sg_record.specs.Records.{code_of};
ghost use Rattle.sg_record.specs.Reading.{kind_with};

/// The kinds of records.
#[derive(Clone, Copy)]
pub enum Kind {
    Begin,
    Page,
    SegWrite,
    SegOp,
    TopEnd,
    PhysComp,
    TopVoid,
    CompEnd,
    Save,
    Commit,
    End,
    Checkpoint,
}

/// The kind with this byte.
pub fn kind_with(code: u8) -> Option<Kind>
    ensures { result ≡ kind_with code }
{
    match code {
        1 => Some(Kind::Begin),
        2 => Some(Kind::Page),
        3 => Some(Kind::SegWrite),
        4 => Some(Kind::SegOp),
        5 => Some(Kind::TopEnd),
        6 => Some(Kind::PhysComp),
        7 => Some(Kind::TopVoid),
        8 => Some(Kind::CompEnd),
        9 => Some(Kind::Save),
        10 => Some(Kind::Commit),
        11 => Some(Kind::End),
        12 => Some(Kind::Checkpoint),
        _ => None,
    }
}

/// A kind's byte.
pub fn code_of(kind: Kind) -> u8
    ensures { result ≡ code_of kind }
{
    match kind {
        Kind::Begin => 1,
        Kind::Page => 2,
        Kind::SegWrite => 3,
        Kind::SegOp => 4,
        Kind::TopEnd => 5,
        Kind::PhysComp => 6,
        Kind::TopVoid => 7,
        Kind::CompEnd => 8,
        Kind::Save => 9,
        Kind::Commit => 10,
        Kind::End => 11,
        Kind::Checkpoint => 12,
    }
}
