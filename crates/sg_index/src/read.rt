// The calls that read an index.
ghost use Rattle.std.specs.Prelude.{◌≡◌, ◌≤◌, List, length, take, IfErr, OnErr, MatchResult, option_map, ⊤};
ghost use Rattle.sg_base.specs.Ends.{HasRisen};
ghost use Rattle.sg_index.specs.Fault.{MatchFault};
ghost use Rattle.sg_index.specs.Index.{IsIndex, IsNoIndex, IsNext, root_fewest};
ghost use Rattle.sg_index.specs.Order.{Entry, next_in, value_in};
ghost use Rattle.sg_index.specs.Records.{IsFound};
ghost use Rattle.sg_index.specs.Tree.{entry_of};

use crate::header::find_header;
use crate::item::Item;
use crate::seek::next_in;
use crate::text::Text;
use crate::{IndexFault, Records};
use sg_base::put_text;

/// How many bytes the buffer for records has.
pub(crate) const BUFFER: usize = 8_192;

/// How many items the root has at least: a leaf may have none, and an inner node has 2 children.
pub(crate) fn root_fewest(leaf: bool) -> usize
    ensures { result ≡ root_fewest leaf }
{
    if leaf { 0 } else { 2 }
}

// The first entry with a key at or above this one, or above it where `strict`.
fn first_from<R: Records>(
    records: &mut R,
    from: &[u8],
    strict: bool,
) -> Result<Option<Item>, IndexFault<R::Fault>>
    ensures next { (entries : List Entry) → IsIndex (R.map records.old) entries →
        MatchResult result (λ found. option_map entry_of found ≡ next_in entries from.now strict) (λ e. MatchFault e ⊤ ⊥ ⊤) }
    ensures kept { R.map records.new ≡ R.map records.old }
    ensures later { R.refusals records.old ≤ R.refusals records.new }
    ensures failed { IfErr result (λ e. MatchFault e (HasRisen (R.refusals records.old) (R.refusals records.new))
        (IsNoIndex (R.map records.old)) ⊥) }
{
    let mut buffer = [0; BUFFER];
    let Some(header) = find_header(records, &mut buffer)? else {
        return Ok(None);
    };
    let level = header.height - 1;
    let least = root_fewest(level == 0);
    next_in(
        records,
        &mut buffer,
        header.root,
        level,
        least,
        from,
        strict,
    )
}

// Copies a text to the front of a buffer.
fn copy_text(text: &Text, into: &mut [u8]) -> usize
    requires { 64 ≤ length into.old }
    ensures copied { take (length text.now) into.new ≡ text.now }
    ensures size { result ≡ length text.now }
{
    put_text(into, 0, text.bytes())
}

/// Copies the value of a key to the front of the buffer, and answers how many bytes it has. There is none where no
/// entry has the key. The records stay. The key has 1 to 64 bytes, and the buffer room for 64. It answers `Records`
/// where a call on the records failed, and `NotAnIndex` where a record that it read, or its absence, isn't that of
/// an index; the buffer is then as it was.
pub fn get<R: Records>(
    records: &mut R,
    key: &[u8],
    into: &mut [u8],
) -> Result<Option<usize>, IndexFault<R::Fault>>
    requires some { 1 ≤ length key.now }
    requires few { length key.now ≤ 64 }
    requires room { 64 ≤ length into.old }
    ensures got { (entries : List Entry) → IsIndex (R.map records.old) entries →
        MatchResult result (λ found. IsFound (value_in entries key.now) found into.new) (λ e. MatchFault e ⊤ ⊥ ⊥) }
    ensures same { OnErr result (into.new ≡ into.old) }
    ensures kept { R.map records.new ≡ R.map records.old }
    ensures later { R.refusals records.old ≤ R.refusals records.new }
    ensures failed { IfErr result (λ e. MatchFault e (HasRisen (R.refusals records.old) (R.refusals records.new))
        (IsNoIndex (R.map records.old)) ⊥) }
{
    let Some(item) = first_from(records, key, false)? else {
        return Ok(None);
    };
    if item.key.bytes() != key {
        return Ok(None);
    }
    Ok(Some(copy_text(&item.value, into)))
}

/// Copies the first entry whose key is at or above `from`, or above it where `strict`, to the front of the buffers,
/// and answers how many bytes its key and its value have. There is none where no key is. The records stay. `from` has 1 to 64
/// bytes, and each buffer has room for 64. It answers `Records` where a call on the records failed, and `NotAnIndex`
/// where a record that it read, or its absence, isn't that of an index; the buffers are then as they were.
pub fn next<R: Records>(
    records: &mut R,
    from: &[u8],
    strict: bool,
    key: &mut [u8],
    value: &mut [u8],
) -> Result<Option<(usize, usize)>, IndexFault<R::Fault>>
    requires some { 1 ≤ length from.now }
    requires few { length from.now ≤ 64 }
    requires key { 64 ≤ length key.old }
    requires value { 64 ≤ length value.old }
    ensures next { (entries : List Entry) → IsIndex (R.map records.old) entries →
        MatchResult result (λ found. IsNext (next_in entries from.now strict) found key.new value.new) (λ e. MatchFault e ⊤ ⊥ ⊥) }
    ensures same_key { OnErr result (key.new ≡ key.old) }
    ensures same_value { OnErr result (value.new ≡ value.old) }
    ensures kept { R.map records.new ≡ R.map records.old }
    ensures later { R.refusals records.old ≤ R.refusals records.new }
    ensures failed { IfErr result (λ e. MatchFault e (HasRisen (R.refusals records.old) (R.refusals records.new))
        (IsNoIndex (R.map records.old)) ⊥) }
{
    let Some(item) = first_from(records, from, strict)? else {
        return Ok(None);
    };
    let key_size = copy_text(&item.key, key);
    let value_size = copy_text(&item.value, value);
    Ok(Some((key_size, value_size)))
}
