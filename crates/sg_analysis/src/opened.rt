ghost use Rattle.std.specs.Prelude.{◌≡◌};
ghost use Rattle.sg_analysis.specs.Analysis.{is_number};

use sg_base::Lsn;
use std::marker::Model;

/// The numbers of the system's changes that are open at the end of a log, the oldest first.
#[derive(Drop)]
pub struct Opened {
    numbers: Vec<Lsn>,
}

impl Model for Opened {
    ghost use Rattle.std.specs.Prelude.{List, ℕ};

    ghost Value = { List ℕ };

    ghost view = { λ opened. opened.numbers.items };
}

impl Opened {
    // These numbers.
    pub(crate) fn new(numbers: Vec<Lsn>) -> Opened
        ensures { result ≡ numbers.items }
    {
        Opened { numbers }
    }

    /// Whether the change with this number is one of them.
    pub fn has(&self, lsn: Lsn) -> bool
        ensures { result ≡ is_number lsn self.now }
    {
        for number in &self.numbers {
            if *number == lsn {
                return true;
            }
        }
        false
    }
}
