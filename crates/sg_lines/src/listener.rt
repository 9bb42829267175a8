// Who is told a listing.
ghost use Rattle.std.specs.Prelude.{◌≤◌, [], ◌∷◌, length};
ghost use Rattle.sg_lines.specs.Heard.{Ears, Hears};
ghost use Rattle.sg_lines.specs.Parts.Part.{ArrayBegins, TableBegins, BlobBegins, AnItem, AnEntry, APiece};

use sg_base::{Failed, Name};

/// Who is told a listing of objects, a part at a time: what an object begins with, and then an array's items in their order, a
/// table's entries by the bytes of their keys, or those pieces of a blob that aren't all 0, by their offsets. A call that fails
/// raises the count of faults, which every other call leaves as it was.
pub trait Listener {
    /// What it says of the parts that it has heard, and of its failures.
    ghost ears: { Ears Self };

    /// An array begins, with so many items of so many bytes.
    fn array(&mut self, name: &Name, size: u64, len: u64) -> Result<(), Failed>
        ensures { Hears ears self.old (ArrayBegins name.now size len ∷ []) self.new result };

    /// A table begins, with so many keys.
    fn table(&mut self, name: &Name, len: u64) -> Result<(), Failed>
        ensures { Hears ears self.old (TableBegins name.now len ∷ []) self.new result };

    /// A blob begins, of so many bytes.
    fn blob(&mut self, name: &Name, len: u64) -> Result<(), Failed>
        ensures { Hears ears self.old (BlobBegins name.now len ∷ []) self.new result };

    /// An item, behind its index.
    fn item(&mut self, index: u64, item: &[u8]) -> Result<(), Failed>
        ensures { Hears ears self.old (AnItem index item.now ∷ []) self.new result };

    /// A value, behind its key.
    fn entry(&mut self, key: &[u8], value: &[u8]) -> Result<(), Failed>
        ensures { Hears ears self.old (AnEntry key.now value.now ∷ []) self.new result };

    /// A piece of a blob of at most 32 bytes, behind its offset.
    fn piece(&mut self, at: u64, bytes: &[u8]) -> Result<(), Failed>
        requires { length bytes.now ≤ 32 }
        ensures { Hears ears self.old (APiece at bytes.now ∷ []) self.new result };
}
