// A listener that adds up.
ghost use Rattle.std.specs.Prelude.{◌≡◌, []};
ghost use Rattle.sg_lines.specs.Added.{summary_of_parts};
ghost use Rattle.sg_lines.specs.Summed.{both};

use crate::listener::Listener;
use crate::summary::{Summary, sum_of};
use sg_base::{Failed, Name};

/// A listener that adds up what the objects come to whose parts it is told, and never fails. It holds none of these.
#[derive(Clone, Copy, Debug, PartialEq, Eq)]
pub struct Adder {
    /// What all that it was told comes to.
    pub summary: Summary,
}

// What an object comes to that begins with so many items, keys or bytes, but for their sum.
fn beginning(items: u64, entries: u64, bytes: u64) -> Summary
    ensures { result ≡ record { objects = 1; items = items; entries = entries; bytes = bytes; sum = 0 } }
{
    Summary {
        objects: 1,
        items,
        entries,
        bytes,
        sum: 0,
    }
}

// What bytes with this sum come to, whose object has begun.
fn contents(sum: u64) -> Summary
    ensures { result ≡ record { objects = 0; items = 0; entries = 0; bytes = 0; sum = sum } }
{
    Summary {
        objects: 0,
        items: 0,
        entries: 0,
        bytes: 0,
        sum,
    }
}

impl Adder {
    /// One that was told nothing.
    pub fn new() -> Adder
        ensures { result.summary ≡ summary_of_parts [] }
    {
        Adder {
            summary: Summary::none(),
        }
    }
}

impl Listener for Adder {
    ghost use Rattle.std.specs.Prelude.{◌≡◌};
    ghost use Rattle.sg_lines.specs.Added.{summary_of_parts};
    ghost use Rattle.sg_lines.specs.Summed.{both};

    ghost ears = { record {
      heard = λ from parts to. to.summary ≡ both from.summary (summary_of_parts parts);
      cut = λ from parts to. ⊥;
      faults = λ _. 0;
      who = λ _. 0;
    } };

    fn array(&mut self, _name: &Name, _size: u64, len: u64) -> Result<(), Failed> {
        self.summary.add(beginning(len, 0, 0));
        Ok(())
    }

    fn table(&mut self, _name: &Name, len: u64) -> Result<(), Failed> {
        self.summary.add(beginning(0, len, 0));
        Ok(())
    }

    fn blob(&mut self, _name: &Name, len: u64) -> Result<(), Failed> {
        self.summary.add(beginning(0, 0, len));
        Ok(())
    }

    fn item(&mut self, _index: u64, item: &[u8]) -> Result<(), Failed> {
        self.summary.add(contents(sum_of(item)));
        Ok(())
    }

    fn entry(&mut self, key: &[u8], value: &[u8]) -> Result<(), Failed> {
        let sum = sum_of(key).wrapping_add(sum_of(value));
        self.summary.add(contents(sum));
        Ok(())
    }

    fn piece(&mut self, _at: u64, bytes: &[u8]) -> Result<(), Failed> {
        self.summary.add(contents(sum_of(bytes)));
        Ok(())
    }
}
