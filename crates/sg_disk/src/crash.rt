// What a crash makes of a disk in memory.
ghost use Rattle.std.specs.Prelude.{◌≡◌, ◌≤◌, ◌<◌, ◌∷◌, ℕ, List, [], IsTrue, length};
ghost use Rattle.sg_base.specs.declared.area.Area.TheVariants.{Home, Log0, Log1};
ghost use Rattle.sg_disk.specs.Disk.{Spoils, LeavesPart};
ghost use Rattle.sg_disk.specs.Memory.{pending_of, bytes_of};
ghost use Rattle.sg_disk.specs.declared.record.Call.{Call};

use crate::memory::grow;
use crate::{Area, Call};
use std::collections::LinkedList;

// What becomes of the bytes that a call left pending.
#[derive(Clone, Copy)]
enum Harm {
    Kept,
    TakenBack,
    Other,
    Torn,
}

fn harm_of(pick: u64) -> Harm {
    match pick % 4 {
        0 => Harm::Kept,
        1 => Harm::TakenBack,
        2 => Harm::Other,
        _ => Harm::Torn,
    }
}

// Puts other bytes into a range, as far as the vector has it.
fn spoil(bytes: &mut Vec<u8>, from: u64, to: u64)
    ensures outside { (i : ℕ) → (from ≤ i → i < to → ⊥) → bytes_of bytes.new.items i ≡ bytes_of bytes.old.items i }
    ensures fit { (i : ℕ) → bytes_of bytes.new.items i < 256 }
{
    let end = bytes.len().min(to as usize);
    for i in from as usize..end {
        bytes[i] = 255 - bytes[i];
    }
}

// Puts a range's old bytes back from a place in it on, as far as the vector has it.
fn take_back(bytes: &mut Vec<u8>, from: u64, to: u64, skip: u64, old: &[u8])
    ensures outside { (i : ℕ) → (from ≤ i → i < to → ⊥) → bytes_of bytes.new.items i ≡ bytes_of bytes.old.items i }
    ensures fit { (i : ℕ) → bytes_of bytes.new.items i < 256 }
{
    let end = bytes.len().min(to as usize);
    for i in from as usize..end {
        let place = i - from as usize;
        if skip <= place as u64 && place < old.len() {
            bytes[i] = old[place];
        }
    }
}

// Does the harm to a range of which these were the bytes before.
fn damage(bytes: &mut Vec<u8>, from: u64, to: u64, old: &[u8], pick: u64)
    ensures outside { (i : ℕ) → (from ≤ i → i < to → ⊥) → bytes_of bytes.new.items i ≡ bytes_of bytes.old.items i }
    ensures fit { (i : ℕ) → bytes_of bytes.new.items i < 256 }
{
    match harm_of(pick) {
        Harm::Kept => {}
        Harm::TakenBack => take_back(bytes, from, to, 0, old),
        Harm::Other => spoil(bytes, from, to),
        Harm::Torn => take_back(bytes, from, to, old.len() as u64 / 2, old),
    }
}

// The same for all bytes from a place on. Those past the vector's end come back where there is memory.
fn damage_rest(bytes: &mut Vec<u8>, from: u64, old: &[u8], pick: u64)
    ensures outside { (i : ℕ) → (from ≤ i → ⊥) → bytes_of bytes.new.items i ≡ bytes_of bytes.old.items i }
    ensures fit { (i : ℕ) → bytes_of bytes.new.items i < 256 }
{
    let _ = grow(bytes, (from as usize).saturating_add(old.len()));
    damage(bytes, from, u64::MAX, old, pick);
}

// Harms the bytes that a call left pending in an area, and answers whether those before it are pending too.
fn harm_call(call: &Call, area: Area, unsynced: bool, bytes: &mut Vec<u8>, pick: u64) -> bool
    ensures outside { (i : ℕ) → (IsTrue unsynced → Spoils (pending_of (call.now ∷ []) area) i → ⊥) → bytes_of bytes.new.items i ≡ bytes_of bytes.old.items i }
    ensures fit { (i : ℕ) → bytes_of bytes.new.items i < 256 }
    ensures before { IsTrue result → IsTrue unsynced }
    ensures more { IsTrue result → (calls : List Call) (i : ℕ) → Spoils (pending_of calls area) i → Spoils (pending_of (call.now ∷ calls) area) i }
{
    if !unsynced {
        return false;
    }
    match call {
        Call::Write {
            area: of,
            at,
            len,
            old,
        } => {
            if *of == area {
                damage(bytes, *at, at.saturating_add(*len), old, pick);
            }
            true
        }
        Call::Drop { area: of, at, old } => {
            if *of == area {
                damage_rest(bytes, *at, old, pick);
            }
            true
        }
        Call::Sync { area: of } => *of != area,
    }
}

/// What a crash leaves of the areas, after these calls.
pub fn crash_all(
    home: Vec<u8>,
    log0: Vec<u8>,
    log1: Vec<u8>,
    calls: LinkedList<Call>,
    pick: u64,
) -> (Vec<u8>, Vec<u8>, Vec<u8>)
    ensures home { LeavesPart (record { seen = bytes_of home.items; pending = pending_of calls Home }) (bytes_of result.0.items) }
    ensures log0 { LeavesPart (record { seen = bytes_of log0.items; pending = pending_of calls Log0 }) (bytes_of result.1.items) }
    ensures log1 { LeavesPart (record { seen = bytes_of log1.items; pending = pending_of calls Log1 }) (bytes_of result.2.items) }
{
    let mut home = home;
    let mut log0 = log0;
    let mut log1 = log1;
    let mut calls = calls;
    let mut pick = pick;
    let mut unsynced_home = true;
    let mut unsynced_log0 = true;
    let mut unsynced_log1 = true;
    while let Some(call) = calls.pop_front() {
        unsynced_home = harm_call(&call, Area::Home, unsynced_home, &mut home, pick);
        unsynced_log0 = harm_call(&call, Area::Log0, unsynced_log0, &mut log0, pick);
        unsynced_log1 = harm_call(&call, Area::Log1, unsynced_log1, &mut log1, pick);
        pick /= 4;
    }
    (home, log0, log1)
}
