// A listener that writes.
ghost use Rattle.sg_base.specs.Ends.{Takes, TakesFront};
ghost use Rattle.sg_lines.specs.Parts.{lines_of};

use crate::line::{write_entry, write_heading, write_item, write_piece};
use crate::listener::Listener;
use sg_base::{Failed, Name, Sink};

/// A listener that writes the line of each part to a sink, which stays the same one.
pub struct Writer<'a, K> {
    /// Where the lines go.
    pub sink: &'a mut K,
}

impl<K: Sink> Listener for Writer<'_, K> {
    ghost ears = { record {
      heard = λ from parts to. Takes (K.taken from.sink.now) (lines_of parts) (K.taken to.sink.now);
      cut = λ from parts to. TakesFront (K.taken from.sink.now) (lines_of parts) (K.taken to.sink.now);
      faults = λ w. K.faults w.sink.now;
      who = λ w. w.sink.ghost_name;
    } };

    fn array(&mut self, name: &Name, size: u64, len: u64) -> Result<(), Failed> {
        name.tell_name();
        write_heading(b"array ", name.text(), Some(size), len, self.sink)
    }

    fn table(&mut self, name: &Name, len: u64) -> Result<(), Failed> {
        name.tell_name();
        write_heading(b"table ", name.text(), None, len, self.sink)
    }

    fn blob(&mut self, name: &Name, len: u64) -> Result<(), Failed> {
        name.tell_name();
        write_heading(b"blob ", name.text(), None, len, self.sink)
    }

    fn item(&mut self, index: u64, item: &[u8]) -> Result<(), Failed> {
        write_item(index, item, self.sink)
    }

    fn entry(&mut self, key: &[u8], value: &[u8]) -> Result<(), Failed> {
        write_entry(key, value, self.sink)
    }

    fn piece(&mut self, at: u64, bytes: &[u8]) -> Result<(), Failed> {
        write_piece(at, bytes, self.sink)
    }
}
