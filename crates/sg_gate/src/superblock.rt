// The fields of a superblock, and their bytes.
ghost use Rattle.std.specs.Prelude.{◌≡◌, ◌+◌, ◌<◌, ◌≤◌, ◌/◌, ◌^◌, length, IfOk, IfErr, Some};
ghost use Rattle.sg_gate.specs.Superblock.{map_bands, first_out, fields, said, spelled, wrong_in, IsSuper, IsText};

use sg_base::{Lsn, put_u8, put_u16, put_u32, put_u64, read_u16, read_u32, read_u64};

// The eight bytes STASISSG.
const MAGIC_NUMBER: u64 = 0x4753_5349_5341_5453;

const VERSION: u16 = 1;

/// What a store says of itself: its sizes, and where its log stands.
#[derive(Clone, Copy, Debug, PartialEq, Eq)]
pub struct Super {
    /// The superblock with the greater sequence counts. It is 1 to 2^64 - 2.
    pub sequence: u64,
    /// How many pages there are: 64 to 1,048,576.
    pub pages: u32,
    /// How many bands there are: 4 to 65,536, and more than the map of what is taken needs itself.
    pub bands: u32,
    /// For how many pages there is room in memory: 32 to 16,384.
    pub frames: u32,
    /// For how many bands there is room in memory: 4 to 256.
    pub windows: u32,
    /// The log area in use: 0 or 1.
    pub log: u8,
    /// The number of that area's first byte in the log: at most 2^63.
    pub base: Lsn,
}

impl Super {
    // How many bands the map of what is taken needs: it has a bit for each page and each band.
    fn map_bands(&self) -> u64
        ensures { result ≡ map_bands self.now.pages self.now.bands }
    {
        (self.pages as u64 + self.bands as u64 + 262_143) / 262_144
    }

    // The offset in a slot of the first field that is out of its range, if one is.
    fn first_wrong(&self) -> Option<u64>
        ensures { result ≡ first_out (fields self.now) }
    {
        if self.sequence < 1 || self.sequence > u64::MAX - 1 {
            return Some(11);
        }
        if self.pages < 64 || self.pages > 1_048_576 {
            return Some(19);
        }
        if self.bands < 4 || self.bands > 65_536 || self.map_bands() >= self.bands as u64 {
            return Some(23);
        }
        if self.frames < 32 || self.frames > 16_384 {
            return Some(27);
        }
        if self.windows < 4 || self.windows > 256 {
            return Some(31);
        }
        if self.log > 1 {
            return Some(35);
        }
        if self.base > 1 << 63 {
            return Some(36);
        }
        None
    }
}

// The fields of a slot's bytes behind its gate.
fn read_fields(text: &[u8]) -> Super
    requires { length text.now ≡ 43 }
    ensures { result ≡ said text.now }
{
    let sequence = read_u64(&text[10..]);
    let pages = read_u32(&text[18..]);
    let bands = read_u32(&text[22..]);
    let frames = read_u32(&text[26..]);
    let windows = read_u32(&text[30..]);
    let log = text[34];
    let base = read_u64(&text[35..]);
    Super {
        sequence,
        pages,
        bands,
        frames,
        windows,
        log,
        base,
    }
}

/// The superblock that a slot's bytes behind its gate say: or else the offset in the slot of the
/// first field that is out of its range.
pub fn parse_text(text: &[u8]) -> Result<Super, u64>
    requires { length text.now ≡ 43 }
    ensures text { IfOk result (λ s. IsText s text.now) }
    ensures range { IfOk result IsSuper }
    ensures wrong { IfErr result (λ at. wrong_in text.now ≡ Some at) }
    ensures near { IfErr result (λ at. at < 44) }
{
    let magic = read_u64(text);
    if magic != MAGIC_NUMBER {
        return Err(1);
    }
    let version = read_u16(&text[8..]);
    if version != VERSION {
        return Err(9);
    }
    let s = read_fields(text);
    match s.first_wrong() {
        Some(at) => Err(at),
        None => Ok(s),
    }
}

/// Writes the bytes that a slot has behind its gate.
pub fn spell_text(s: &Super, text: &mut [u8])
    requires { length text.old ≡ 43 }
    ensures { text.new ≡ spelled s.now }
{
    let at = put_u64(text, 0, MAGIC_NUMBER);
    let at = put_u16(text, at, VERSION);
    let at = put_u64(text, at, s.sequence);
    let at = put_u32(text, at, s.pages);
    let at = put_u32(text, at, s.bands);
    let at = put_u32(text, at, s.frames);
    let at = put_u32(text, at, s.windows);
    let at = put_u8(text, at, s.log);
    put_u64(text, at, s.base);
}
