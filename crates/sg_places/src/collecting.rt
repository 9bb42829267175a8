// The places of the records that are repeated.
ghost use Rattle.std.specs.Prelude.{◌≡◌, ◌+◌, ◌*◌, ◌≤◌, ◌<◌, ◌^◌, ◌++◌, [], true, ℕ, List, length, Some, None, Ok, OnOk, OnErr, vec_len, vec_capacity};
ghost use Rattle.sg_record.specs.Shown.{shown};
ghost use Rattle.sg_log.specs.Frames.{LOG_END, numbered_from, numbered_in};
ghost use Rattle.sg_record.specs.Records.{Record};
ghost use Rattle.sg_log.specs.Texts.{AreRecords, spelled_all};
ghost use Rattle.sg_places.specs.Text.{IsText};
ghost use Rattle.sg_redo.specs.Places.{changed_by};
ghost use Rattle.sg_places.specs.Asked.{is_there, all_there, first_outside};
ghost use Rattle.sg_places.specs.Placed.{place_in, places_in};

use crate::body::body_size;
use crate::change::{change_of, unit_of};
use sg_base::Lsn;
use sg_record::{Rec, decode};
use sg_redo::Place;

/// The text isn't whole frames of records of the store's pages and bands.
#[derive(Clone, Copy, Debug, PartialEq, Eq)]
pub struct Torn;

// Adds the place of a record from the point on that makes a change.
fn add_place(
    rec: &Rec<'_>,
    lsn: Lsn,
    base: Lsn,
    pages: u32,
    bands: u32,
    point: Lsn,
    places: &mut Vec<Place>,
) -> Result<(), Torn>
    requires low { base ≤ lsn }
    requires few { pages + bands < 2 ^ 32 }
    requires room { vec_len places.old < vec_capacity places.old }
    ensures places { OnOk result (places.new.items ≡ places.old.items ++ place_in pages base point (record { lsn = lsn; is = shown rec.now })) }
    ensures there { is_there pages bands (changed_by (shown rec.now).says) ≡ true → OnErr result ⊥ }
    ensures most { vec_len places.new ≤ vec_len places.old + 1 }
    ensures room { vec_capacity places.new ≡ vec_capacity places.old }
{
    if lsn < point {
        return Ok(());
    }
    let Some(change) = change_of(rec) else {
        return Ok(());
    };
    let Some(unit) = unit_of(&change, pages, bands) else {
        return Err(Torn);
    };
    let at = lsn - base;
    places.push_reserved(Place { unit, lsn, at });
    Ok(())
}

// Adds the places of the records that these bytes are. The first of them has the number `lsn`. Each
// record has 21 bytes at least.
fn collect_body(
    body: &[u8],
    lsn: Lsn,
    base: Lsn,
    pages: u32,
    bands: u32,
    point: Lsn,
    places: &mut Vec<Place>,
) -> Result<(), Torn>
    requires within { lsn + length body.now ≤ LOG_END }
    requires low { base ≤ lsn }
    requires few { pages + bands < 2 ^ 32 }
    requires room { length body.now + 21 * vec_len places.old ≤ 21 * vec_capacity places.old }
    ensures places { (rs : List Record) → AreRecords rs → spelled_all rs ≡ body.now → OnOk result (places.new.items ≡ places.old.items ++ places_in pages base point (numbered_from lsn rs)) }
    ensures there { (rs : List Record) → AreRecords rs → spelled_all rs ≡ body.now → all_there pages bands rs ≡ true → OnErr result ⊥ }
    ensures most { 21 * vec_len places.new ≤ 21 * vec_len places.old + length body.now }
    ensures room { vec_capacity places.new ≡ vec_capacity places.old }
{
    let mut from = 0;
    'records: while from < body.len() {
        let Ok((rec, size)) = decode(&body[from..]) else {
            return Err(Torn);
        };
        let here = lsn + from as u64;
        match add_place(&rec, here, base, pages, bands, point, places) {
            Ok(()) => from += size,
            Err(torn) => return Err(torn),
        }
    }
    Ok(())
}

/// Puts the places of the records of a stretch from the redo point on that make a change into the
/// list, in their order, instead of what it had. The text's first byte has the number `base`; its
/// records are of pages and bands of the store. It takes no memory: the list has room for one place for
/// each 21 bytes of the text but the 5 before the first frame's body, and no record has fewer.
pub fn collect(
    text: &[u8],
    base: Lsn,
    pages: u32,
    bands: u32,
    point: Lsn,
    places: &mut Vec<Place>,
) -> Result<(), Torn>
    requires within { base + length text.now ≤ LOG_END }
    requires few { pages + bands < 2 ^ 32 }
    requires room { length text.now ≤ 21 * vec_capacity places.old + 5 }
    ensures places { (frames : List (List Record)) → IsText frames text.now → OnOk result (places.new.items ≡ places_in pages base point (numbered_in base frames)) }
    ensures there { (frames : List (List Record)) → IsText frames text.now → first_outside pages bands 0 frames ≡ None → OnErr result ⊥ }
    ensures most { 21 * vec_len places.new ≤ length text.now }
    ensures room { vec_capacity places.new ≡ vec_capacity places.old }
{
    places.clear();
    let mut at = 0;
    'frames: while at < text.len() {
        let Some(size) = body_size(text, at) else {
            return Err(Torn);
        };
        let from = at + 5;
        let body = &text[from..from + size];
        let lsn = base + from as u64;
        match collect_body(body, lsn, base, pages, bands, point, places) {
            Ok(()) => at = from + size,
            Err(torn) => return Err(torn),
        }
    }
    Ok(())
}
