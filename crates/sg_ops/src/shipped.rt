// The operations that come with the crate.
ghost use Rattle.std.proofs.Common.{rules};
ghost use Rattle.std.specs.Prelude.{◌≡◌, ℕ, ◌<◌, ◌≤◌, ◌+◌, ◌%◌, ◌^◌, IsTrue, Some, length, slice_index};
ghost use Rattle.sg_ops.specs.Table.{rendered};
ghost use Rattle.sg_ops.specs.Shipped.{add_meaning, after_add, before_add, value_of, xor_meaning, xored, rotate_meaning, ramp_meaning, fill_meaning};
ghost use Rattle.sg_ops.specs.AddLaw.{add_is_undoable};
ghost use Rattle.sg_ops.specs.XorLaw.{xor_is_undoable};
ghost use Rattle.sg_ops.specs.RotateLaw.{rotate_is_undoable};

use crate::RANGE_LIMIT;
use crate::bytes::are_bytes;
use crate::range::RangeOp;
use crate::record::RecordOp;

/// Code 1: adds the argument to the item, both read as little-endian numbers of one length, at
/// most 8 bytes; a sum past the length wraps.
#[derive(Drop)]
pub struct Add;

/// Code 2: the exclusive or of the item and an argument of the same length.
#[derive(Drop)]
pub struct Xor;

/// Code 3: rotates the item toward its front by the one byte of the argument.
#[derive(Drop)]
pub struct Rotate;

/// Code 2: bytes that count up from the argument's first byte, or from 0, and wrap after 255.
#[derive(Drop)]
pub struct Ramp;

fn add_bytes(item: &mut [u8], arg: &[u8])
    requires { length item.old ≡ length arg.now }
    ensures { item.new ≡ after_add item.old arg.now }
{
    let mut carry = 0u16;
    for k in 0..item.len() {
        let sum = u16::from(item[k]) + u16::from(arg[k]) + carry;
        item[k] = (sum % 256) as u8;
        carry = sum / 256;
    }
}

// The bytes that the argument lacks count as 0, and those past the item's end are left out.
fn subtract_bytes(item: &mut [u8], arg: &[u8])
    ensures { item.new ≡ before_add item.old arg.now }
{
    are_bytes(item);
    are_bytes(arg);
    let mut borrow = 0u16;
    for k in 0..item.len() {
        let taken = if k < arg.len() { u16::from(arg[k]) } else { 0 };
        let rest = u16::from(item[k]) + 256 - (taken + borrow);
        item[k] = (rest % 256) as u8;
        borrow = 1 - rest / 256;
    }
}

fn xor_bytes(item: &mut [u8], arg: &[u8])
    ensures { item.new ≡ xored item.old arg.now }
{
    for k in 0..item.len() {
        if k < arg.len() {
            item[k] ^= arg[k];
        }
    }
}

// How far the argument turns an item of this length.
fn turn(len: usize, arg: &[u8]) -> usize
    requires { 0 < len }
    ensures turn { result ≡ slice_index arg.now 0 % len }
    ensures within { result < len }
{
    match arg.first() {
        Some(r) => usize::from(*r) % len,
        None => 0,
    }
}

// The bytes of `fill`: the argument over and over, from position 0 on, or zeros.
pub fn fill(pos: u32, arg: &[u8], into: &mut [u8])
    requires { pos + length into.old ≤ RANGE_LIMIT }
    ensures { into.new ≡ rendered (Some fill_meaning) arg.now pos (length into.old) }
{
    if arg.is_empty() {
        into.fill(0);
    } else {
        for k in 0..into.len() {
            into[k] = arg[(pos as usize + k) % arg.len()];
        }
    }
}

impl RecordOp for Add {
    ghost record_meaning = { λ _. add_meaning };

    ghost record_law = { λ _. add_is_undoable };

    fn code(&self) -> u16 {
        1
    }

    fn accepts(&self, item: &[u8], arg: &[u8]) -> bool {
        item.len() == arg.len() && item.len() <= 8
    }

    fn redo(&self, item: &mut [u8], arg: &[u8])
        requires { IsTrue (add_meaning.accepts item.old arg.now) }
        ensures bytes { item.new ≡ add_meaning.after item.old arg.now }
        // As numbers: the sum, modulo the count of numbers that the item's length can hold.
        ensures sum { value_of item.new ≡ (value_of item.old + value_of arg.now) % 256 ^ length item.old }
    {
        add_bytes(item, arg)
    }

    fn undo(&self, item: &mut [u8], arg: &[u8]) {
        subtract_bytes(item, arg)
    }
}

impl RecordOp for Xor {
    ghost record_meaning = { λ _. xor_meaning };

    ghost record_law = { λ _. xor_is_undoable };

    fn code(&self) -> u16 {
        2
    }

    fn accepts(&self, item: &[u8], arg: &[u8]) -> bool {
        item.len() == arg.len()
    }

    fn redo(&self, item: &mut [u8], arg: &[u8]) {
        xor_bytes(item, arg)
    }

    fn undo(&self, item: &mut [u8], arg: &[u8]) {
        xor_bytes(item, arg)
    }
}

impl RecordOp for Rotate {
    ghost record_meaning = { λ _. rotate_meaning };

    ghost record_law = { λ _. rotate_is_undoable };

    fn code(&self) -> u16 {
        3
    }

    fn accepts(&self, item: &[u8], arg: &[u8]) -> bool {
        arg.len() == 1
    }

    fn redo(&self, item: &mut [u8], arg: &[u8])
        requires { IsTrue (rotate_meaning.accepts item.old arg.now) }
        ensures bytes { item.new ≡ rotate_meaning.after item.old arg.now }
        ensures byte_by_byte { (j : ℕ) → j < length item.old →
            slice_index item.new j
            ≡ slice_index item.old ((j + slice_index arg.now 0) % length item.old) }
    {
        if !item.is_empty() {
            let by = turn(item.len(), arg);
            item.rotate_left(by);
        }
    }

    fn undo(&self, item: &mut [u8], arg: &[u8]) {
        if !item.is_empty() {
            let by = turn(item.len(), arg);
            item.rotate_right(by);
        }
    }
}

impl RangeOp for Ramp {
    ghost range_meaning = { λ _. ramp_meaning };

    ghost range_law = { λ _ arg position bytes within. Prim.search rules };

    fn code(&self) -> u16 {
        2
    }

    fn render(&self, pos: u32, arg: &[u8], into: &mut [u8]) {
        let first = match arg.first() {
            Some(x) => u64::from(*x),
            None => 0,
        };
        for k in 0..into.len() {
            into[k] = ((first + u64::from(pos) + k as u64) % 256) as u8;
        }
    }
}
