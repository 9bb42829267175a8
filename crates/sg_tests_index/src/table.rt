// A table in memory, whose records are laid down as bytes.
ghost use Rattle.std.specs.Prelude.{◌≡◌, ◌≤◌, ◌∷◌, ℕ, length, slice_get, option_map, Some, IfOk, OnOk, OnErr};
ghost use Rattle.byteorder.specs.Endian.{little_bytes};
ghost use Rattle.sg_index.specs.Records.{Puts, Dels};
ghost use Rattle.sg_tests_index.specs.Table.{number_in, place_of, some_bytes, record_in};

use sg_base::{put_u32, read_u32};
use sg_index::Records;
use std::alloc::{AllocError, Global};

/// A call was refused.
#[derive(Debug, PartialEq, Eq, Drop)]
pub struct Refused;

/// Records in memory: the one of the header, and those of nodes by their numbers. No bytes stand for no record.
#[derive(Drop)]
pub struct Table {
    pub alloc: Global,
    pub header: Vec<u8>,
    pub nodes: Vec<Vec<u8>>,
    pub refusals: u64,
    /// How many more calls pass.
    pub passes: u64,
}

/// Where the record of a key stands.
#[derive(Clone, Copy)]
pub enum Place {
    Header,
    Node(u32),
    Other,
}

// The key of a node's record.
fn node_key(number: u32) -> [u8; 5]
    ensures key { result ≡ 110 ∷ little_bytes 4 number }
    ensures size { length result ≡ 5 }
{
    let mut key = [b'n', 0, 0, 0, 0];
    put_u32(&mut key, 1, number);
    key
}

// The number in the bytes 1 to 4 of a key.
fn number_in(key: &[u8]) -> u32
    ensures { result ≡ number_in key.now }
{
    if key.len() < 5 {
        return 0;
    }
    read_u32(&key[1..])
}

fn place_of(key: &[u8]) -> Place
    ensures { result ≡ place_of key.now }
{
    if key == b"h".as_slice() {
        return Place::Header;
    }
    let number = number_in(key);
    let own = node_key(number);
    if key == own.as_slice() {
        return Place::Node(number);
    }
    Place::Other
}

// A record, where it has bytes.
fn some(bytes: &Vec<u8>) -> Option<&Vec<u8>>
    ensures { option_map (λ v. v.now.items) result ≡ some_bytes bytes.now.items }
{
    if bytes.is_empty() {
        return None;
    }
    Some(bytes)
}

impl Table {
    // The record of a key.
    fn record(&self, key: &[u8]) -> Option<&Vec<u8>>
        ensures { option_map (λ v. v.now.items) result ≡ record_in (λ v. v.items) self.now.header.items self.now.nodes.items key.now }
    {
        match place_of(key) {
            Place::Header => some(&self.header),
            Place::Node(number) => match self.nodes.get(number as usize) {
                Some(record) => some(record),
                None => None,
            },
            Place::Other => None,
        }
    }

    // Writes the record of a node.
    fn put_node(&mut self, number: u32, bytes: Vec<u8>) -> Result<(), Refused>
        ensures here { OnOk result (slice_get self.new.nodes.items number ≡ Some bytes) }
        ensures others { (m : ℕ) → ¬ (m ≡ number) → OnOk result (slice_get self.new.nodes.items m ≡ slice_get self.old.nodes.items m) }
        ensures kept { OnErr result (self.new.nodes.items ≡ self.old.nodes.items) }
        ensures header { self.new.header.items ≡ self.old.header.items }
        ensures refusals { self.new.refusals ≡ self.old.refusals }
    {
        let at = number as usize;
        if at < self.nodes.len() {
            self.nodes[at] = bytes;
            return Ok(());
        }
        if at > self.nodes.len() {
            return Err(Refused);
        }
        match self.nodes.push(bytes) {
            Ok(()) => Ok(()),
            Err(_) => Err(Refused),
        }
    }

    // Writes the record of a key.
    fn write(&mut self, key: &[u8], bytes: Vec<u8>) -> Result<(), Refused>
        requires { 1 ≤ length bytes.items }
        ensures put { OnOk result (Puts (record_in (λ v. v.items) self.old.header.items self.old.nodes.items) key.now bytes.items
            (record_in (λ v. v.items) self.new.header.items self.new.nodes.items)) }
        ensures kept { OnErr result (self.new.nodes.items ≡ self.old.nodes.items) }
        ensures header { OnErr result (self.new.header.items ≡ self.old.header.items) }
        ensures refusals { self.new.refusals ≡ self.old.refusals }
    {
        match place_of(key) {
            Place::Header => {
                self.header = bytes;
                Ok(())
            }
            Place::Node(number) => self.put_node(number, bytes),
            Place::Other => Err(Refused),
        }
    }

    // Takes the record of a key away.
    fn erase(&mut self, key: &[u8])
        ensures gone { Dels (record_in (λ v. v.items) self.old.header.items self.old.nodes.items) key.now
            (record_in (λ v. v.items) self.new.header.items self.new.nodes.items) }
        ensures refusals { self.new.refusals ≡ self.old.refusals }
    {
        let none = Vec::new(self.alloc);
        match place_of(key) {
            Place::Header => self.header = none,
            Place::Node(number) => {
                let at = number as usize;
                if at < self.nodes.len() {
                    self.nodes[at] = none;
                }
            }
            Place::Other => {}
        }
    }
}

// A copy of some bytes.
fn copied(alloc: Global, bytes: &[u8]) -> Result<Vec<u8>, Refused>
    ensures { IfOk result (λ v. v.items ≡ bytes.now) }
{
    let mut copy = Vec::new(alloc);
    match copy.extend_from_slice(bytes) {
        Ok(()) => Ok(copy),
        Err(_) => Err(Refused),
    }
}

impl Records for Table {
    type Fault = Refused;

    ghost map = { λ t. record_in (λ v. v.items) t.header.items t.nodes.items };

    ghost refusals = { λ t. t.refusals };

    fn find(&mut self, key: &[u8], into: &mut [u8]) -> Result<Option<usize>, Refused> {
        if self.passes == 0 {
            self.refusals = self.refusals.saturating_add(1);
            return Err(Refused);
        }
        self.passes -= 1;
        let Some(record) = self.record(key) else {
            return Ok(None);
        };
        let size = record.len();
        if size > 2_048 {
            self.refusals = self.refusals.saturating_add(1);
            return Err(Refused);
        }
        into[..size].copy_from_slice(record);
        Ok(Some(size))
    }

    fn put(&mut self, key: &[u8], value: &[u8]) -> Result<(), Refused> {
        if self.passes > 0 && !value.is_empty() {
            self.passes -= 1;
            let copy = copied(self.alloc, value);
            if let Ok(record) = copy {
                if self.write(key, record).is_ok() {
                    return Ok(());
                }
            }
        }
        self.refusals = self.refusals.saturating_add(1);
        Err(Refused)
    }

    fn del(&mut self, key: &[u8]) -> Result<(), Refused> {
        if self.passes == 0 {
            self.refusals = self.refusals.saturating_add(1);
            return Err(Refused);
        }
        self.passes -= 1;
        self.erase(key);
        Ok(())
    }
}

// A node that is being laid down: the first key at or below it, and its number.
#[derive(Drop)]
struct Laid {
    key: Vec<u8>,
    number: u32,
}

// A number that is drawn from the one before.
pub fn drawn(state: u64) -> u64 {
    let a = state ^ (state << 13);
    let b = a ^ (a >> 7);
    b ^ (b << 17)
}

// A key of 1 to 8 bytes.
pub fn key_of(alloc: Global, state: u64) -> Result<Vec<u8>, AllocError> {
    let mut key = Vec::new(alloc);
    let size = 1 + state % 8;
    let bytes = (state >> 8).to_le_bytes();
    for i in 0..8u64 {
        if i < size {
            key.push(bytes[i as usize] % 7)?;
        }
    }
    Ok(key)
}

// So many entries with keys that rise.
pub fn entries(alloc: Global, count: usize) -> Result<Vec<(Vec<u8>, Vec<u8>)>, AllocError> {
    let mut list: Vec<(Vec<u8>, Vec<u8>)> = Vec::new(alloc);
    let mut state = 88_172_645_463_325_252u64;
    for _ in 0..1_000_000u32 {
        if list.len() == count {
            break;
        }
        state = drawn(state);
        let key = key_of(alloc, state)?;
        if let Err(at) = list.binary_search_by(|e| e.0.as_slice().cmp(key.as_slice())) {
            let value = key_of(alloc, drawn(state))?;
            list.insert(at, (key, value))?;
        }
    }
    Ok(list)
}

// The bytes of a leaf: 0, how many entries there are, and both lengths, the key and the value of each.
fn leaf(alloc: Global, group: &[(Vec<u8>, Vec<u8>)]) -> Result<Vec<u8>, AllocError> {
    let mut bytes = Vec::new(alloc);
    bytes.push(0)?;
    bytes.push(u8::try_from(group.len()).unwrap_or(0))?;
    for (key, value) in group {
        bytes.push(u8::try_from(key.len()).unwrap_or(0))?;
        bytes.push(u8::try_from(value.len()).unwrap_or(0))?;
        bytes.extend_from_slice(key)?;
        bytes.extend_from_slice(value)?;
    }
    Ok(bytes)
}

// The bytes of an inner node: 1, how many separators there are, the children, and the length and the bytes of each separator.
fn inner(alloc: Global, group: &[Laid]) -> Result<Vec<u8>, AllocError> {
    let mut bytes = Vec::new(alloc);
    bytes.push(1)?;
    bytes.push(u8::try_from(group.len().saturating_sub(1)).unwrap_or(0))?;
    for child in group {
        bytes.extend_from_slice(&child.number.to_le_bytes())?;
    }
    for child in group.iter().skip(1) {
        bytes.push(u8::try_from(child.key.len()).unwrap_or(0))?;
        bytes.extend_from_slice(&child.key)?;
    }
    Ok(bytes)
}

// A table that is an index of these entries, ten in each leaf and up to ten children in each other node.
pub fn lay(alloc: Global, list: &[(Vec<u8>, Vec<u8>)]) -> Result<Table, AllocError> {
    let mut nodes = Vec::new(alloc);
    nodes.push(Vec::new(alloc))?;
    let mut level = Vec::new(alloc);
    for group in list.chunks(10) {
        let number = u32::try_from(nodes.len()).unwrap_or(0);
        nodes.push(leaf(alloc, group)?)?;
        if let Some((key, _)) = group.first() {
            level.push(Laid {
                key: key.clone()?,
                number,
            })?;
        }
    }
    let mut height = 1u8;
    for _ in 0..10u8 {
        if level.len() < 2 {
            break;
        }
        let mut above = Vec::new(alloc);
        for group in level.chunks(10) {
            let number = u32::try_from(nodes.len()).unwrap_or(0);
            nodes.push(inner(alloc, group)?)?;
            if let Some(first) = group.first() {
                above.push(Laid {
                    key: first.key.clone()?,
                    number,
                })?;
            }
        }
        level = above;
        height = height.saturating_add(1);
    }
    let mut header = Vec::new(alloc);
    let root = level.first().map_or(0, |laid| laid.number);
    header.extend_from_slice(&root.to_le_bytes())?;
    let next = u32::try_from(nodes.len()).unwrap_or(0);
    header.extend_from_slice(&next.to_le_bytes())?;
    header.push(height)?;
    Ok(Table {
        alloc,
        header,
        nodes,
        refusals: 0,
        passes: u64::MAX,
    })
}
