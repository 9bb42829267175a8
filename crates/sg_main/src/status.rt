ghost use Rattle.std.specs.Prelude.{◌≡◌, Some};
ghost use Rattle.sg_main.specs.Texts.{number_of_status, text_of_status};

use sg_folder::area_name;
use sg_top::Status;
use std::fmt;

/// A status as it is printed.
#[derive(Clone, Copy, Drop)]
pub struct Shown(pub Status);

/// The exit status of the process.
pub fn exit_number(status: Status) -> u8
    ensures { result ≡ number_of_status status }
{
    match status {
        Status::Done => 0,
        Status::NotAStore => 1,
        Status::Usage => 2,
        Status::Memory => 3,
        Status::Disk => 4,
        Status::Read => 5,
        Status::Write => 6,
        Status::TooLong => 7,
        Status::UnknownOperation(_) => 8,
        Status::Damaged(_, _) => 9,
        Status::Exists => 10,
        Status::BadGeometry => 11,
        Status::LogEnd => 12,
    }
}

impl fmt::Display for Shown {
    ghost output = { λ shown. Some (text_of_status shown.0) };

    fn fmt<W: fmt::Write>(&self, f: &mut fmt::Formatter<W>) -> fmt::Result {
        match self.0 {
            Status::Done => f.write_str(""),
            Status::NotAStore => f.write_str("not a store"),
            Status::Usage => f.write_str("usage"),
            Status::Memory => f.write_str("out of memory"),
            Status::Disk => f.write_str("disk fault"),
            Status::Read => f.write_str("read fault"),
            Status::Write => f.write_str("write fault"),
            Status::TooLong => f.write_str("script too long"),
            Status::UnknownOperation(code) => write!(f, "unknown operation {code}"),
            Status::Damaged(area, at) => {
                let name = area_name(area);
                write!(f, "damaged {name} {at}")
            }
            Status::Exists => f.write_str("store exists"),
            Status::BadGeometry => f.write_str("bad geometry"),
            Status::LogEnd => f.write_str("log end"),
        }
    }
}
