ghost use Rattle.std.specs.Prelude.{◌≡◌, ◌≤◌, ◌<◌, ◌+◌, ℕ, Bool, length, min, OnOk, IsTrue};
ghost use Rattle.sg_disk.specs.Disk.{END, FULL, View, Counts, ReadBytes, Wrote, Dropped, Synced, window};

use crate::{Area, Failed};

/// A disk of three areas, each with bytes from offset 0 on. A byte that was never written is 0.
///
/// A range of bytes is pending from its write or its drop, also from one that failed, to the next
/// sync of its area that succeeds. A crash leaves any value at each pending byte, and what a read
/// gives at every other one.
///
/// A call that fails raises the count of faults, and every other call leaves it as it was. A count that
/// stands at 2^64 - 1 counts as raised.
pub trait Disk {
    /// Whether such a disk tells what it contains. Of one that doesn't only the counts are known.
    ghost told: { Bool };

    /// All that is known of it: what reads give and what is pending, now and at each earlier moment,
    /// and the counts of bytes handed to writes, of calls and of faults.
    ghost view: { Self → View };

    /// Fills `into` with the bytes from `at` on. It changes no byte and no pending range, also where
    /// it fails. After a failure the contents of `into` are open.
    fn read_at(&mut self, area: Area, at: u64, into: &mut [u8]) -> Result<(), Failed>
        requires { at + length into.old ≤ END }
        ensures counts { Counts 0 (view self.old) (view self.new) result }
        ensures does { IsTrue told → ReadBytes (view self.old) (view self.new) result }
        ensures unchanged { IsTrue told → (view self.new).now ≡ (view self.old).now }
        ensures bytes { IsTrue told → OnOk result (into.new ≡ window ((view self.old).now area).seen at (length into.old)) };

    /// Writes `bytes` at `at`, and makes their range pending. A write that fails may have happened
    /// in any part.
    fn write_at(&mut self, area: Area, at: u64, bytes: &[u8]) -> Result<(), Failed>
        requires { at + length bytes.now ≤ END }
        ensures counts { Counts (length bytes.now) (view self.old) (view self.new) result }
        ensures handed { OnOk result ((view self.new).handed ≡ min ((view self.old).handed + length bytes.now) FULL) }
        ensures does { IsTrue told → Wrote area at bytes.now (view self.old) (view self.new) result };

    /// Makes each byte at and after `at` read 0, and makes all of them pending. A drop that fails
    /// may have happened in any part.
    fn drop_from(&mut self, area: Area, at: u64) -> Result<(), Failed>
        requires { at ≤ END }
        ensures counts { Counts 0 (view self.old) (view self.new) result }
        ensures does { IsTrue told → Dropped area at (view self.old) (view self.new) result };

    /// Makes the area durable: nothing of it is pending afterwards, and a crash leaves of it what a
    /// read gives. Where it fails, what was pending stays so.
    fn sync(&mut self, area: Area) -> Result<(), Failed>
        ensures counts { Counts 0 (view self.old) (view self.new) result }
        ensures does { IsTrue told → Synced area (view self.old) (view self.new) result };

    /// What reads give are bytes, so it is one of the images that a crash may leave.
    ghost reads: { (disk : Self) → IsTrue told → (a : _) (i : ℕ) → ((view disk).now a).seen i < 256 };
}
