// The two slots of the superblock.
ghost use Rattle.std.specs.Prelude.{◌≡◌, ◌≢◌, ◌⊎◌, ◌≤◌, ◌<◌, ◌+◌, ℕ, List, Some, None, length, drop, min, slice_index, if◌then◌else◌, OnOk, OnErr, IfOk, IfErr, IsTrue, ◌↔◌};
ghost use Rattle.sg_base.specs.Ends.{HasRisen};
ghost use Rattle.sg_base.specs.declared.area.Area.TheVariants.{Home};
ghost use Rattle.sg_disk.specs.Disk.{FULL, LeavesOnly, View, window};
ghost use Rattle.sg_disk.specs.Heeds.{Heeds};
ghost use Rattle.sg_gate.specs.Faults.{WriteFails, ReadFails, is_disk};
ghost use Rattle.sg_gate.specs.Reads.{OnlyReads};
ghost use Rattle.sg_gate.specs.declared.superblock.Super.{Super};
ghost use Rattle.sg_gate.specs.Superblock.{start_of, SLOT, which, counting, superblock, read_text, sequence_of, spare, spare_of, IsSuper, IsText, IsNewer, AreSettled, IsSpare, IsCalm, IsWritten, IsRenewing, IsRenewed, renewing_calls, renewing_bytes};

use crate::GateFault;
use crate::superblock::{Super, parse_text, spell_text};
use sg_base::read_u64;
use sg_disk::{Area, Disk, Failed};

// The offsets in the home area at which the two slots begin, with their gates.
const FIRST_START: u64 = 0;

const SECOND_START: u64 = 4_096;

/// One of the two slots.
#[derive(Clone, Copy, Debug, PartialEq, Eq)]
pub enum Slot {
    First,
    Second,
}

impl Slot {
    // The offset in the home area at which it begins, with its gate.
    fn start(self) -> u64
        ensures { result ≡ start_of self }
    {
        match self {
            Slot::First => FIRST_START,
            Slot::Second => SECOND_START,
        }
    }
}

// Which of two slots with these bytes counts.
fn choose(first: &[u8], second: &[u8]) -> Option<Slot>
    requires first { length first.now ≡ SLOT }
    requires second { length second.now ≡ SLOT }
    ensures { result ≡ which (slice_index first.now 0) (slice_index second.now 0) (sequence_of (drop 1 first.now)) (sequence_of (drop 1 second.now)) }
{
    let newer = read_u64(&first[11..]) < read_u64(&second[11..]);
    if first[0] == 1 {
        if second[0] == 1 && newer {
            return Some(Slot::Second);
        }
        return Some(Slot::First);
    }
    if second[0] == 1 {
        return Some(Slot::Second);
    }
    None
}

// The slot that doesn't count, and the first where none does.
fn spare(counting: Option<Slot>) -> Slot
    ensures { result ≡ spare counting }
{
    match counting {
        Some(Slot::First) => Slot::Second,
        Some(Slot::Second) | None => Slot::First,
    }
}

// Reads both slots, and answers which one counts.
fn read_slots<D: Disk>(
    disk: &mut D,
    first: &mut [u8],
    second: &mut [u8],
) -> Result<Option<Slot>, Failed>
    requires first { length first.old ≡ SLOT }
    requires second { length second.old ≡ SLOT }
    ensures counting { IsTrue D.told → IfOk result (λ slot. slot ≡ counting ((D.view disk.old).now Home).seen) }
    ensures first { IsTrue D.told → OnOk result (first.new ≡ window ((D.view disk.old).now Home).seen 0 (length first.old)) }
    ensures second { IsTrue D.told → OnOk result (second.new ≡ window ((D.view disk.old).now Home).seen 4096 (length second.old)) }
    ensures reads { OnlyReads D.told (D.view disk.old) (D.view disk.new) }
    ensures quiet { OnOk result ((D.view disk.new).faults ≡ (D.view disk.old).faults) }
    ensures failed { OnErr result (HasRisen (D.view disk.old).faults (D.view disk.new).faults) }
    ensures calls { OnOk result ((D.view disk.new).calls ≡ min ((D.view disk.old).calls + 2) FULL) }
    ensures calls_most { (D.view disk.new).calls ≤ (D.view disk.old).calls + 2 }
{
    disk.read_at(Area::Home, FIRST_START, first)?;
    disk.read_at(Area::Home, SECOND_START, second)?;
    Ok(choose(first, second))
}

// What the bytes of a slot behind its gate say.
fn read_slot(slot: Slot, text: &[u8]) -> Result<Super, GateFault>
    requires { length text.now ≡ 43 }
    ensures exact { result ≡ read_text (start_of slot) text.now }
    ensures range { IfOk result IsSuper }
{
    match parse_text(text) {
        Ok(s) => Ok(s),
        Err(at) => Err(GateFault::Damaged {
            at: slot.start() + at,
        }),
    }
}

/// Reads the superblock: the slot that counts is the open one, of two open ones that with the greater
/// sequence, and the first where these are equal. Nothing is written.
///
/// It answers `NotAStore` exactly where the gates of both are closed, and `Damaged` exactly where a
/// field of the slot that counts is out of its range, with the offset in the home area of the first
/// such field.
pub fn read_super<D: Disk>(disk: &mut D) -> Result<Super, GateFault>
    ensures found { IsTrue D.told → (result ≡ superblock ((D.view disk.old).now Home).seen) ⊎ (result ≡ Err GateFault.Disk) }
    ensures shut { IsTrue D.told → ((D.view disk.old).now Home).seen 0 ≢ 1 → ((D.view disk.old).now Home).seen 4096 ≢ 1 → (result ≡ Err GateFault.NotAStore) ⊎ (result ≡ Err GateFault.Disk) }
    ensures range { IfOk result IsSuper }
    ensures faults { IfErr result (λ e. ReadFails D.told (D.view disk.old) (D.view disk.new) e) }
    ensures reads { OnlyReads D.told (D.view disk.old) (D.view disk.new) }
    ensures heeded { Heeds is_disk result (D.view disk.old) (D.view disk.new) }
    ensures calls { OnOk result ((D.view disk.new).calls ≡ min ((D.view disk.old).calls + 2) FULL) }
    ensures calls_most { (D.view disk.new).calls ≤ (D.view disk.old).calls + 2 }
{
    let mut first = [0; 44];
    let mut second = [0; 44];
    let Some(slot) = read_slots(disk, &mut first, &mut second)? else {
        return Err(GateFault::NotAStore);
    };
    match slot {
        Slot::First => read_slot(slot, &first[1..]),
        Slot::Second => read_slot(slot, &second[1..]),
    }
}

// Closes the gate of a slot, and syncs.
fn close_slot<D: Disk>(disk: &mut D, at: u64) -> Result<(), Failed>
    requires { at ≤ 4096 }
    ensures done { IsTrue D.told → OnOk result (IsCalm (D.view disk.old).now (D.view disk.new).now at) }
    ensures any_moment { (new : Super) (text : List ℕ) → IsTrue D.told → IsSpare ((D.view disk.old).now Home).seen new text at → AreSettled ((D.view disk.old).now Home) → ((D.view disk.old).now Home).seen at ≡ 1 →
        LeavesOnly (D.view disk.old) (D.view disk.new) (IsRenewing (D.view disk.old).now new at) }
    ensures failed { OnErr result (HasRisen (D.view disk.old).faults (D.view disk.new).faults) }
    ensures later { (D.view disk.old).faults ≤ (D.view disk.new).faults }
    ensures quiet { OnOk result ((D.view disk.new).faults ≡ (D.view disk.old).faults) }
    ensures calls { OnOk result ((D.view disk.new).calls ≡ min ((D.view disk.old).calls + 2) FULL) }
    ensures calls_most { (D.view disk.new).calls ≤ (D.view disk.old).calls + 2 }
    ensures handed { (D.view disk.new).handed ≤ (D.view disk.old).handed + 1 }
    ensures kept { (D.view disk.old).handed ≤ (D.view disk.new).handed }
    ensures all_handed { OnOk result ((D.view disk.new).handed ≡ min ((D.view disk.old).handed + 1) FULL) }
{
    disk.write_at(Area::Home, at, &[0])?;
    disk.sync(Area::Home)?;
    Ok(())
}

// Writes a slot whose gate is closed, syncs, opens the gate and syncs.
fn write_slot<D: Disk>(disk: &mut D, at: u64, text: &[u8]) -> Result<(), Failed>
    requires place { at ≤ 4096 }
    requires size { length text.now ≡ 43 }
    ensures done { IsTrue D.told → OnOk result (IsWritten (D.view disk.old).now (D.view disk.new).now at text.now) }
    ensures any_moment { (v : View) (new : Super) → IsTrue D.told → IsSpare (v.now Home).seen new text.now at → AreSettled (v.now Home) → LeavesOnly v (D.view disk.old) (IsRenewing v.now new at) → IsCalm v.now (D.view disk.old).now at →
        LeavesOnly v (D.view disk.new) (IsRenewing v.now new at) }
    ensures failed { OnErr result (HasRisen (D.view disk.old).faults (D.view disk.new).faults) }
    ensures later { (D.view disk.old).faults ≤ (D.view disk.new).faults }
    ensures quiet { OnOk result ((D.view disk.new).faults ≡ (D.view disk.old).faults) }
    ensures calls { OnOk result ((D.view disk.new).calls ≡ min ((D.view disk.old).calls + 4) FULL) }
    ensures calls_most { (D.view disk.new).calls ≤ (D.view disk.old).calls + 4 }
    ensures handed { (D.view disk.new).handed ≤ (D.view disk.old).handed + 44 }
    ensures kept { (D.view disk.old).handed ≤ (D.view disk.new).handed }
    ensures all_handed { OnOk result ((D.view disk.new).handed ≡ min ((D.view disk.old).handed + 44) FULL) }
{
    disk.write_at(Area::Home, at + 1, text)?;
    disk.sync(Area::Home)?;
    disk.write_at(Area::Home, at, &[1])?;
    disk.sync(Area::Home)?;
    Ok(())
}

// Writes a slot, whose gate is closed first where it is open.
fn renew_slot<D: Disk>(disk: &mut D, at: u64, is_open: bool, text: &[u8]) -> Result<(), Failed>
    requires place { at ≤ 4096 }
    requires size { length text.now ≡ 43 }
    ensures done { (new : Super) → IsTrue D.told → IsSpare ((D.view disk.old).now Home).seen new text.now at → OnOk result (IsRenewed (D.view disk.old).now (D.view disk.new).now new at) }
    ensures any_moment { (v : View) (new : Super) → IsTrue D.told → IsSpare (v.now Home).seen new text.now at → AreSettled (v.now Home) → LeavesOnly v (D.view disk.old) (IsRenewing v.now new at) →
        (D.view disk.old).now ≡ v.now → (IsTrue is_open ↔ ((v.now Home).seen at ≡ 1)) → LeavesOnly v (D.view disk.new) (IsRenewing v.now new at) }
    ensures failed { OnErr result (HasRisen (D.view disk.old).faults (D.view disk.new).faults) }
    ensures later { (D.view disk.old).faults ≤ (D.view disk.new).faults }
    ensures quiet { OnOk result ((D.view disk.new).faults ≡ (D.view disk.old).faults) }
    ensures calls { OnOk result ((D.view disk.new).calls ≡ min ((D.view disk.old).calls + (if is_open then 6 else 4)) FULL) }
    ensures calls_most { (D.view disk.new).calls ≤ (D.view disk.old).calls + 6 }
    ensures handed { (D.view disk.new).handed ≤ (D.view disk.old).handed + 45 }
    ensures kept { (D.view disk.old).handed ≤ (D.view disk.new).handed }
    ensures all_handed { OnOk result ((D.view disk.new).handed ≡ min ((D.view disk.old).handed + (if is_open then 45 else 44)) FULL) }
{
    if is_open {
        close_slot(disk, at)?;
        return write_slot(disk, at, text);
    }
    write_slot(disk, at, text)
}

/// Writes `s` into the slot that doesn't count: the first where none does. An open gate of that slot
/// is closed first; the text is written behind it and the gate opened, with a sync behind each. At
/// each moment a crash leaves the superblock from before, or `s`; that holds where nothing is pending
/// in the two slots.
pub fn renew<D: Disk>(disk: &mut D, s: &Super) -> Result<(), GateFault>
    requires { IsSuper s.now }
    ensures done { IsTrue D.told → IsNewer ((D.view disk.old).now Home).seen s.now →
        OnOk result (IsRenewed (D.view disk.old).now (D.view disk.new).now s.now (spare_of ((D.view disk.old).now Home).seen)) }
    ensures any_moment { IsTrue D.told → IsNewer ((D.view disk.old).now Home).seen s.now → AreSettled ((D.view disk.old).now Home) →
        LeavesOnly (D.view disk.old) (D.view disk.new) (IsRenewing (D.view disk.old).now s.now (spare_of ((D.view disk.old).now Home).seen)) }
    ensures faults { IfErr result (λ e. WriteFails (D.view disk.old) (D.view disk.new) e) }
    ensures later { (D.view disk.old).faults ≤ (D.view disk.new).faults }
    ensures heeded { Heeds is_disk result (D.view disk.old) (D.view disk.new) }
    ensures calls { IsTrue D.told → OnOk result ((D.view disk.new).calls ≡ min ((D.view disk.old).calls + renewing_calls ((D.view disk.old).now Home).seen) FULL) }
    ensures calls_most { (D.view disk.new).calls ≤ (D.view disk.old).calls + 8 }
    ensures handed { (D.view disk.new).handed ≤ (D.view disk.old).handed + 45 }
    ensures kept { (D.view disk.old).handed ≤ (D.view disk.new).handed }
    ensures all_handed { IsTrue D.told → OnOk result ((D.view disk.new).handed ≡ min ((D.view disk.old).handed + renewing_bytes ((D.view disk.old).now Home).seen) FULL) }
{
    let mut first = [0; 44];
    let mut second = [0; 44];
    let mut text = [0; 43];
    spell_text(s, &mut text);
    match spare(read_slots(disk, &mut first, &mut second)?) {
        Slot::First => {
            renew_slot(disk, FIRST_START, first[0] == 1, &text)?;
            Ok(())
        }
        Slot::Second => {
            renew_slot(disk, SECOND_START, second[0] == 1, &text)?;
            Ok(())
        }
    }
}
