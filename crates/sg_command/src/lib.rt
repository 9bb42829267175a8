//! The words of the command line, and the text of a geometry file.
//!
//! It stands on `sg_base`, `sg_words`, `sg_geometry`, `toml` and `clap`. It promises that words ask for exactly what their definition says
//! of the command that `clap` reads them by, that a text says exactly the sizes of the TOML document that it is, and that a source says
//! exactly those of the whole text that it gives; want of memory aside.
#![tactic(auto)]

mod file;
mod law;
mod line;
mod sizes;
mod words;

pub use file::{SizesFault, read_sizes};
pub use law::written_words_are_taken;
pub use sizes::{GeometryError, parse_geometry};
pub use words::{Command, Paths, WordsError, read_command, read_paths};
