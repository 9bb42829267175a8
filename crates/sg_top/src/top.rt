ghost use Rattle.std.specs.Prelude.{◌≡◌, ◌⊎◌, true, false, IsTrue, IfSome};
ghost use Rattle.sg_disk.specs.Disk.{refusing, Spent};
ghost use Rattle.sg_ops.specs.Table.{table_of};
ghost use Rattle.sg_commands.specs.Drawing.{Draws, sunk};
ghost use Rattle.sg_commands.specs.Images.{IsOfStore, IsPresumed};
ghost use Rattle.sg_commands.specs.Logged.{ListsLog};
ghost use Rattle.sg_commands.specs.Making.{SaysMade};
ghost use Rattle.sg_commands.specs.Written.{WritesObjects, text_for};
ghost use Rattle.sg_commands.specs.Sized.{Makes};
ghost use Rattle.sg_commands.specs.Stores.{grounds, says};
ghost use Rattle.sg_commands.specs.Top.{outside, Account};
ghost use Rattle.sg_commands.specs.Words.{are_run, are_init, are_log, are_served, call_disk, listing_asked, with_file, drawn, stop_after};

use sg_base::{Sink, Source};
use sg_commands::{Finish, Status, serve};
use sg_disk::{Disk, Fuse, Origin, Presumes};
use sg_ops::Ops;
use sg_paged::Paged;
use sg_pages::Phys;
use std::alloc::Global;
use std::marker::Brand;
use std::thread::Threads;

// The same over a fuse with this mark, which says how the disk was handed in and what is presumed of it.
fn serve_pages<R: Threads + Sync, D: Disk, S: Source, K: Sink, O: Origin + Presumes>(
    rt: &R,
    alloc: Global,
    ops: Ops,
    words: &[String],
    disk: D,
    script: &mut S,
    out: &mut K,
) -> Finish<D>
    requires known { IsTrue O.known }
    requires passes { O.passes ≡ stop_after words.now }
    requires began { O.calls ≡ (D.view disk).calls }
    requires faults { O.faults ≡ (D.view disk).faults }
    requires presumed { IsPresumed grounds says (table_of record_meaning range_meaning ops) D.told O.presumed (D.view disk) }
    ensures usage { result.status ≡ Status.Usage → are_served words.now ≡ false }
    ensures unused { are_served words.now ≡ false → ((result.status ≡ Status.Usage) ⊎ (result.status ≡ Status.Memory)) × (out.new ≡ out.old) }
    ensures apart { are_run words.now ≡ false → with_file words.now ≡ false → script.new ≡ script.old }
    ensures beside { call_disk words.now ≡ false → (result.disk ≡ disk) × (result.refused ≡ 0) }
    ensures run { are_run words.now ≡ true → Account grounds says (table_of record_meaning range_meaning ops) D.told O.presumed (outside (D.view disk) (S.left script.old) (S.faults script.old) (K.taken out.old) (K.faults out.old))
        (outside (D.view result.disk) (S.left script.new) (S.faults script.new) (K.taken out.new) (K.faults out.new)) result.refused result.status }
    ensures made { are_init words.now ≡ true → Makes grounds says result.status (with_file words.now) D.told (outside (D.view disk) (S.left script.old) (S.faults script.old) (K.taken out.old) (K.faults out.old))
        (outside (D.view result.disk) (S.left script.new) (S.faults script.new) (K.taken out.new) (K.faults out.new)) result.refused }
    ensures said { are_init words.now ≡ true → SaysMade result.status (sunk (K.taken out.old) (K.faults out.old)) (sunk (K.taken out.new) (K.faults out.new)) }
    ensures objects { IfSome (listing_asked words.now) (λ listing. WritesObjects grounds says (text_for listing) (table_of record_meaning range_meaning ops) D.told O.presumed (refusing (D.view disk) 0)
        (refusing (D.view result.disk) result.refused) (sunk (K.taken out.old) (K.faults out.old)) (sunk (K.taken out.new) (K.faults out.new)) result.status) }
    ensures listed { are_log words.now ≡ true → ListsLog result.status D.told (D.view disk) (D.view result.disk) (sunk (K.taken out.old) (K.faults out.old)) (sunk (K.taken out.new) (K.faults out.new)) }
    ensures drawn { IfSome (drawn words.now) (λ d. Draws result.status d (sunk (K.taken out.old) (K.faults out.old)) (sunk (K.taken out.new) (K.faults out.new))) }
    ensures heeded { (result.status ≡ Status.Disk → ⊥) → ((D.view result.disk).faults ≡ (D.view disk).faults) × (result.refused ≡ 0) }
    ensures spent { Spent (stop_after words.now) (D.view disk).calls (D.view result.disk).calls result.refused }
{
    serve::<R, D, S, K, O, Paged<Phys<Fuse<D, O>>>>(rt, alloc, ops, words, disk, script, out)
}

/// Does what the words say, with the script that the source gives, over the disk: `run` and a folder,
/// which names the disk, runs the script with these operations over the store that the disk has, up to 64
/// of whose transactions are live at a time. The replies go to the sink. With `--stop-after` and a number
/// beside these the disk makes so many more calls at most: each later one fails, and doesn't touch
/// it. `init` and a folder make a store there of the usual sizes, write `ok`, and read no script. With `--geometry`
/// and a file beside these the source gives the text that says its sizes; where it says none that are fit the disk
/// isn't called. `dump` and a folder write the objects of the store that the disk has, and `check` and a folder what they come to: the store is
/// opened for that, and closed as it is. `log` and a folder write the listing of the log of the store that the disk has, which isn't opened for
/// that, and nothing to the disk. `gen`, a seed and a count write a workload to the sink, and make no call of the
/// disk or the source. Other words are `Status::Usage`, and touch nothing; words take memory to be read. A run
/// ends with its first fault, but for one of the disk: behind that each line is still answered.
///
/// It serves, and is safe, over any disk. What is said of contents is said where the disk tells what it holds and
/// the image that reads give at the call stands for objects by these operations.
pub fn stasis<R: Threads + Sync, D: Disk, S: Source, K: Sink>(
    rt: &R,
    alloc: Global,
    ops: Ops,
    words: &[String],
    disk: D,
    script: &mut S,
    out: &mut K,
) -> Finish<D>
    ensures usage { result.status ≡ Status.Usage → are_served words.now ≡ false }
    ensures unused { are_served words.now ≡ false → ((result.status ≡ Status.Usage) ⊎ (result.status ≡ Status.Memory)) × (out.new ≡ out.old) }
    ensures apart { are_run words.now ≡ false → with_file words.now ≡ false → script.new ≡ script.old }
    ensures beside { call_disk words.now ≡ false → (result.disk ≡ disk) × (result.refused ≡ 0) }

    // The headline: one course of the run, its replies, what a crash leaves of it, the cause of its status, and that it is
    // done where nothing hinders it.
    ensures run { are_run words.now ≡ true → Account grounds says (table_of record_meaning range_meaning ops) D.told (IsOfStore grounds says (table_of record_meaning range_meaning ops) (D.view disk))
        (outside (D.view disk) (S.left script.old) (S.faults script.old) (K.taken out.old) (K.faults out.old))
        (outside (D.view result.disk) (S.left script.new) (S.faults script.new) (K.taken out.new) (K.faults out.new)) result.refused result.status }

    // A new store: which sizes it has, what its status tells, what a crash leaves at each moment of making it, and what is
    // written.
    ensures made { are_init words.now ≡ true → Makes grounds says result.status (with_file words.now) D.told (outside (D.view disk) (S.left script.old) (S.faults script.old) (K.taken out.old) (K.faults out.old))
        (outside (D.view result.disk) (S.left script.new) (S.faults script.new) (K.taken out.new) (K.faults out.new)) result.refused }
    ensures said { are_init words.now ≡ true → SaysMade result.status (sunk (K.taken out.old) (K.faults out.old)) (sunk (K.taken out.new) (K.faults out.new)) }

    // The objects, or what they come to: what the sink took of that, why it isn't done, and that a crash leaves the same objects.
    ensures objects { IfSome (listing_asked words.now) (λ listing. WritesObjects grounds says (text_for listing) (table_of record_meaning range_meaning ops) D.told (IsOfStore grounds says (table_of record_meaning range_meaning ops) (D.view disk))
        (refusing (D.view disk) 0) (refusing (D.view result.disk) result.refused) (sunk (K.taken out.old) (K.faults out.old)) (sunk (K.taken out.new) (K.faults out.new)) result.status) }

    // The listing of a log: what the sink took of it, why it isn't done, and that the disk is as it was.
    ensures listed { are_log words.now ≡ true → ListsLog result.status D.told (D.view disk) (D.view result.disk) (sunk (K.taken out.old) (K.faults out.old)) (sunk (K.taken out.new) (K.faults out.new)) }

    // A workload: what the sink took of it, by its status.
    ensures drawn { IfSome (drawn words.now) (λ d. Draws result.status d (sunk (K.taken out.old) (K.faults out.old)) (sunk (K.taken out.new) (K.faults out.new))) }

    // A fault of the disk, and a call that is refused, give their status.
    ensures heeded { (result.status ≡ Status.Disk → ⊥) → ((D.view result.disk).faults ≡ (D.view disk).faults) × (result.refused ≡ 0) }

    // The stop: no more calls than it lets pass, and one refused only behind exactly so many.
    ensures spent { Spent (stop_after words.now) (D.view disk).calls (D.view result.disk).calls result.refused }
{
    serve_pages::<R, D, S, K, Brand>(rt, alloc, ops, words, disk, script, out)
}
