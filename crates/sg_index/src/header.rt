// The record that says where the root is.
ghost use Rattle.std.specs.Prelude.{◌≡◌, ◌<◌, ◌≤◌, ◌^◌, ◌∷◌, [], length, IfOk, IfErr, IfSome, MatchOption, None, Some, OnOk};
ghost use Rattle.sg_base.specs.Ends.{HasRisen};
ghost use Rattle.sg_index.specs.Fault.{MatchFault};
ghost use Rattle.sg_index.specs.Index.{read_header, header_at, header_key, spelled_header, HasNoHeader};
ghost use Rattle.sg_index.specs.Records.{Puts};
ghost use Rattle.sg_index.specs.Change.{IsHeaded};

use crate::{IndexFault, Records};
use sg_base::{put_u8, put_u32, split_u8, split_u32};

/// The most levels of a tree.
pub(crate) const MOST_LEVELS: u8 = 16;

/// The number of the root, the number that a new node gets, and how many levels there are.
#[derive(Clone, Copy)]
pub(crate) struct Header {
    pub(crate) root: u32,
    pub(crate) next: u32,
    pub(crate) height: u8,
}

// What some bytes say, if they are such a record.
fn decode_header(bytes: &[u8]) -> Option<Header>
    ensures read { result ≡ read_header bytes.now }
    ensures low { IfSome result (λ h. 1 ≤ h.height) }
    ensures high { IfSome result (λ h. h.height ≤ 16) }
    ensures root { IfSome result (λ h. h.root < 2 ^ 32) }
    ensures next { IfSome result (λ h. h.next < 2 ^ 32) }
{
    let (root, rest) = split_u32(bytes)?;
    let (next, rest) = split_u32(rest)?;
    let (height, rest) = split_u8(rest)?;
    if height < 1 || height > MOST_LEVELS {
        return None;
    }
    if !rest.is_empty() {
        return None;
    }
    Some(Header { root, next, height })
}

/// What the record says, or that there is none. It answers `NotAnIndex` where a record is there that isn't one.
pub(crate) fn find_header<R: Records>(
    records: &mut R,
    buffer: &mut [u8],
) -> Result<Option<Header>, IndexFault<R::Fault>>
    requires { 8192 ≤ length buffer.old }
    ensures found { IfOk result (λ found. MatchOption found (R.map records.old header_key ≡ None) (λ h. header_at (R.map records.old) ≡ Some h)) }
    ensures low { IfOk result (λ found. IfSome found (λ h. 1 ≤ h.height)) }
    ensures high { IfOk result (λ found. IfSome found (λ h. h.height ≤ 16)) }
    ensures root { IfOk result (λ found. IfSome found (λ h. h.root < 2 ^ 32)) }
    ensures next { IfOk result (λ found. IfSome found (λ h. h.next < 2 ^ 32)) }
    ensures kept { R.map records.new ≡ R.map records.old }
    ensures later { R.refusals records.old ≤ R.refusals records.new }
    ensures failed { IfErr result (λ e. MatchFault e (HasRisen (R.refusals records.old) (R.refusals records.new))
        (HasNoHeader (R.map records.old)) ⊥) }
{
    let size = match records.find(b"h", buffer) {
        Ok(Some(size)) => size,
        Ok(None) => return Ok(None),
        Err(fault) => return Err(IndexFault::Records(fault)),
    };
    match decode_header(&buffer[..size]) {
        Some(header) => Ok(Some(header)),
        None => Err(IndexFault::NotAnIndex),
    }
}

// The bytes of the record.
fn encode_header(header: Header) -> [u8; 9]
    ensures spelled { result ≡ spelled_header header }
    ensures size { length result ≡ 9 }
{
    let mut bytes = [0; 9];
    let at = put_u32(&mut bytes, 0, header.root);
    let at = put_u32(&mut bytes, at, header.next);
    put_u8(&mut bytes, at, header.height);
    bytes
}

/// Writes the record.
pub(crate) fn write_header<R: Records>(
    records: &mut R,
    header: Header,
) -> Result<(), IndexFault<R::Fault>>
    ensures put { OnOk result (Puts (R.map records.old) header_key (spelled_header header) (R.map records.new)) }
    ensures later { R.refusals records.old ≤ R.refusals records.new }
    ensures failed { IfErr result (λ e. MatchFault e (HasRisen (R.refusals records.old) (R.refusals records.new)) ⊥ ⊥) }
{
    let bytes = encode_header(header);
    match records.put(b"h", &bytes) {
        Ok(()) => Ok(()),
        Err(fault) => Err(IndexFault::Records(fault)),
    }
}

/// Writes the record with this next number, if it was another one.
pub(crate) fn keep_header<R: Records>(
    records: &mut R,
    header: Header,
    next: u32,
) -> Result<(), IndexFault<R::Fault>>
    requires low { 1 ≤ header.height }
    requires high { header.height ≤ 16 }
    requires root { header.root < 2 ^ 32 }
    ensures headed { header_at (R.map records.old) ≡ Some header → OnOk result (IsHeaded (R.map records.old) (R.map records.new) (record header { next = next })) }
    ensures fits { next < 2 ^ 32 }
    ensures later { R.refusals records.old ≤ R.refusals records.new }
    ensures failed { IfErr result (λ e. MatchFault e (HasRisen (R.refusals records.old) (R.refusals records.new)) ⊥ ⊥) }
{
    if next == header.next {
        return Ok(());
    }
    write_header(
        records,
        Header {
            root: header.root,
            next,
            height: header.height,
        },
    )
}
