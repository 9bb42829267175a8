ghost use Rattle.std.specs.Prelude.{ℕ, List, Bool};
ghost use Rattle.sg_disk.specs.Disk.{Image, View};
ghost use Rattle.sg_log.specs.Frames.{Numbered};
ghost use Rattle.sg_ops.specs.Table.{Table};
ghost use Rattle.sg_recovery.specs.Laws.{Each};
ghost use Rattle.sg_analysis.specs.Codes.{codes};
ghost use Rattle.sg_analysis.specs.Standing.{IsPageLog};
ghost use Rattle.sg_engine.specs.Engine.{Origin};
ghost use Rattle.sg_gate.specs.declared.superblock.Super.{Super};
ghost use Rattle.sg_find.specs.declared.fault.OpenFault.TheVariants.{UnknownOperation};
ghost use Rattle.sg_open.specs.Needed.{IsRegistered, IsUnregistered, codes_of};
ghost use Rattle.sg_open.specs.Refusals.{IsRead, IsAccepted, IsCause, IsLateCause, StoreRefused};

/// A law: opening finds a code unknown only where the image's log needs an operation with this code, on
/// the bytes of a cell or on a range of a band, and none of that sort is registered; and where each
/// that the log needs is registered, it never does. Where it accepts an image whose log is formed, each
/// is registered. The same of a store that can be opened with these records.
pub fn refusals_name_codes()
    ensures named { (t : Table) (c : Image) (code : ℕ) → IsCause t c (UnknownOperation code) → (r : IsRead c) × IsUnregistered t (codes_of c r) code }
    ensures never { (t : Table) (c : Image) (code : ℕ) → ((r : IsRead c) → Each (IsRegistered t) (codes_of c r)) → IsCause t c (UnknownOperation code) → ⊥ }
    ensures late { (c : Image) (code : ℕ) → IsLateCause c (UnknownOperation code) → ⊥ }
    ensures accepted { (t : Table) (c : Image) (s : Super) → (a : IsAccepted t c s) → IsPageLog a.0.super.base a.0.log.records → Each (IsRegistered t) (codes_of c a.0) }
    ensures store { (told : Bool) (t : Table) (o : Origin) (ds : List Numbered) (old new : View) (code : ℕ) → StoreRefused told t o ds old new (UnknownOperation code) → IsUnregistered t (codes o.super.base ds) code }
    ensures never_store { (told : Bool) (t : Table) (o : Origin) (ds : List Numbered) (old new : View) (code : ℕ) → Each (IsRegistered t) (codes o.super.base ds) → StoreRefused told t o ds old new (UnknownOperation code) → ⊥ }
{}
