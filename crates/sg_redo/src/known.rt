// Whether the operations that records name are registered.
ghost use Rattle.std.specs.Prelude.{◌≡◌, ◌↔◌, IsTrue};
ghost use Rattle.sg_ops.specs.Table.{table_of};
ghost use Rattle.sg_redo.specs.Places.{change_at, IsKnown};
ghost use Rattle.sg_redo.specs.Units.{AreKnown};

use crate::change::change_at;
use crate::place::Place;
use sg_ops::Ops;
use sg_record::Change;

// Whether the range operation that the record at this place names is registered, if it names one.
fn is_known(place: Place, text: &[u8], ops: &Ops) -> bool
    ensures { IsTrue result ↔ IsKnown (table_of record_meaning range_meaning ops.now) (change_at text.now place.at) }
{
    match change_at(text, place.at) {
        Some(Change::SegOp(change)) => ops.has_range(change.code),
        Some(Change::Page(_) | Change::SegWrite(_)) | None => true,
    }
}

/// Whether each range operation that a record at one of the places names is registered. `replay`
/// asks for it.
pub fn are_known(places: &[Place], text: &[u8], ops: &Ops) -> bool
    ensures { IsTrue result ↔ AreKnown (table_of record_meaning range_meaning ops.now) text.now places.now }
{
    'places: for place in places {
        if !is_known(*place, text, ops) {
            return false;
        }
    }
    true
}
