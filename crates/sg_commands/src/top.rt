ghost use Rattle.std.specs.Prelude.{◌≡◌, ◌≤◌, ◌⊎◌, [], true, false, None, IsTrue, IfSome, IfOk, length};
ghost use Rattle.sg_disk.specs.Disk.{refusing, Spent};
ghost use Rattle.sg_geometry.specs.Fit.{is_fit};
ghost use Rattle.sg_ops.specs.Table.{table_of};
ghost use Rattle.sg_session.specs.Names.{all_live};
ghost use Rattle.sg_script.specs.Ending.{MOST_OF_PIECE};
ghost use Rattle.sg_commands.specs.Images.{IsPresumed};
ghost use Rattle.sg_commands.specs.Words.{are_run, are_init, are_log, are_served, call_disk, listing_asked, with_file, drawn, stop_after};
ghost use Rattle.sg_commands.specs.Making.{MakesOf, IsMade, SaysMade};
ghost use Rattle.sg_commands.specs.Sized.{Makes};
ghost use Rattle.sg_commands.specs.Drawing.{Draws, sunk};
ghost use Rattle.sg_commands.specs.Logged.{ListsLog};
ghost use Rattle.sg_commands.specs.Written.{WritesObjects, text_for};
ghost use Rattle.sg_commands.specs.Top.{outside, HasGone, Account};

use crate::listing::list_log;
use crate::objects::{Listing, write_objects};
use crate::opens::{Opens, Unopened};
use crate::sizes::asked_sizes;
use crate::status::{
    Status, first_fault, status_of_closing, status_of_end, status_of_making, status_of_refusal,
    status_of_sizes, status_of_stop,
};
use sg_base::{OutOfMemory, Sink, Source};
use sg_command::{Command, WordsError, read_command};
use sg_disk::{Disk, Fuse, Origin, Presumes};
use sg_geometry::Geometry;
use sg_model::Reply;
use sg_ops::Ops;
use sg_script::{Ended, Room, run};
use sg_session::{Names, Session};
use sg_words::{Answer, write_answer};
use sg_workload::write_workload;
use std::alloc::Global;
use std::thread::Threads;

/// What a command leaves: its status, the disk, and how many of its calls the stop refused. A count
/// of 2^64 - 1 stays.
#[derive(Drop)]
pub struct Finish<D> {
    pub status: Status,
    pub disk: D,
    pub refused: u64,
}

// The memory that a run takes beside the store's.
#[derive(Drop)]
struct Rooms {
    piece: Vec<u8>,
    room: Room,
    names: Names,
}

// The end of a command, with the disk out of its fuse.
fn finished<D: Disk, O: Origin>(status: Status, fuse: Fuse<D, O>) -> Finish<D>
    ensures status { result.status ≡ status }
    ensures view { ⟦<Fuse<D, O> as Disk>⟧.view fuse ≡ refusing (D.view result.disk) result.refused }
    ensures spent { IsTrue O.known → Spent O.passes O.calls (D.view result.disk).calls result.refused }
    ensures later { IsTrue O.known → O.faults ≤ (D.view result.disk).faults }
{
    let refused = fuse.refused();
    Finish {
        status,
        disk: fuse.into_inner(),
        refused,
    }
}

// The room that takes a piece of a script.
fn piece_room(alloc: Global) -> Result<Vec<u8>, OutOfMemory>
    ensures { IfOk result (λ v. length v.items ≡ MOST_OF_PIECE) }
{
    match vec![in alloc; 0; 65_536] {
        Ok(zeros) => Ok(zeros),
        Err(_) => Err(OutOfMemory),
    }
}

fn make_rooms(alloc: Global) -> Result<Rooms, OutOfMemory>
    ensures size { IfOk result (λ r. length r.piece.items ≡ MOST_OF_PIECE) }
    ensures unnamed { IfOk result (λ r. all_live r.names.all.items ≡ []) }
{
    let piece = piece_room(alloc)?;
    let room = Room::new(alloc)?;
    let names = Names::new(alloc)?;
    Ok(Rooms { piece, room, names })
}

// Runs the script over the disk, which makes so many calls at most where a number is given.
fn run_behind_fuse<
    R: Threads + Sync,
    D: Disk,
    S: Source,
    K: Sink,
    O: Origin + Presumes,
    E: Opens<Fuse<D, O>>,
>(
    rt: &R,
    alloc: Global,
    ops: &Ops,
    disk: D,
    calls: Option<u64>,
    script: &mut S,
    out: &mut K,
) -> Finish<D>
    requires known { IsTrue O.known }
    requires passes { O.passes ≡ calls }
    requires began { O.calls ≡ (D.view disk).calls }
    requires faults { O.faults ≡ (D.view disk).faults }
    requires presumed { IsPresumed E.basis E.says (table_of record_meaning range_meaning ops.now) D.told O.presumed (D.view disk) }
    ensures run { HasGone E.basis E.says (table_of record_meaning range_meaning ops.now) D.told O.presumed (outside (D.view disk) (S.left script.old) (S.faults script.old) (K.taken out.old) (K.faults out.old))
        (outside (D.view result.disk) (S.left script.new) (S.faults script.new) (K.taken out.new) (K.faults out.new)) result.refused result.status }
    ensures heeded { (result.status ≡ Status.Disk → ⊥) → ((D.view result.disk).faults ≡ (D.view disk).faults) × (result.refused ≡ 0) }
    ensures spent { Spent calls (D.view disk).calls (D.view result.disk).calls result.refused }
{
    let Ok(rooms) = make_rooms(alloc) else {
        return Finish {
            status: Status::Memory,
            disk,
            refused: 0,
        };
    };
    let Rooms { piece, room, names } = rooms;
    let mut piece = piece;
    let mut room = room;
    let fuse = Fuse::<D, O>::marked(disk, calls);
    let store = match E::open(rt, alloc, ops, fuse) {
        Ok(store) => store,
        Err(Unopened { why, disk }) => {
            let status = status_of_refusal(why);
            return finished(status, disk);
        }
    };
    let session = Session::over(store, names);
    let Ended {
        end,
        by_then: _,
        stop,
        engine,
    } = run(alloc, ops, session, &mut room, script, out, &mut piece);
    let first = status_of_stop(stop);
    let status = first_fault(first, status_of_end(end));
    finished(status, engine.into_disk())
}

// Says that a store was made, and how that ended.
fn say_made<K: Sink>(out: &mut K) -> Status
    ensures made { IsMade result }
    ensures said { SaysMade result (sunk (K.taken out.old) (K.faults out.old)) (sunk (K.taken out.new) (K.faults out.new)) }
{
    match write_answer(&Answer::Said(Reply::Done), &[], out) {
        Ok(()) => Status::Done,
        Err(_) => Status::Write,
    }
}

// Makes a store of these sizes on the disk, which makes so many calls at most where a number is given.
fn init_behind_fuse<D: Disk, K: Sink, O: Origin + Presumes, E: Opens<Fuse<D, O>>>(
    disk: D,
    calls: Option<u64>,
    sizes: &Geometry,
    out: &mut K,
) -> Finish<D>
    requires known { IsTrue O.known }
    requires passes { O.passes ≡ calls }
    requires began { O.calls ≡ (D.view disk).calls }
    requires faults { O.faults ≡ (D.view disk).faults }
    requires fit { IsTrue (is_fit sizes.now) }
    ensures makes { MakesOf E.basis E.says sizes.now result.status D.told (D.view disk) (D.view result.disk) result.refused }
    ensures said { SaysMade result.status (sunk (K.taken out.old) (K.faults out.old)) (sunk (K.taken out.new) (K.faults out.new)) }
    ensures heeded { (result.status ≡ Status.Disk → ⊥) → ((D.view result.disk).faults ≡ (D.view disk).faults) × (result.refused ≡ 0) }
    ensures spent { Spent calls (D.view disk).calls (D.view result.disk).calls result.refused }
{
    let mut fuse = Fuse::<D, O>::marked(disk, calls);
    match E::init(&mut fuse, sizes) {
        Ok(()) => {
            let status = say_made(out);
            finished(status, fuse)
        }
        Err(why) => {
            let status = status_of_making(why);
            finished(status, fuse)
        }
    }
}

// Makes a store on the disk, of the sizes that the source says where a file says them. Without sizes there is no call of the disk.
fn init<D: Disk, S: Source, K: Sink, O: Origin + Presumes, E: Opens<Fuse<D, O>>>(
    alloc: Global,
    disk: D,
    by_file: bool,
    source: &mut S,
    out: &mut K,
) -> Finish<D>
    requires known { IsTrue O.known }
    requires passes { O.passes ≡ None }
    requires began { O.calls ≡ (D.view disk).calls }
    requires faults { O.faults ≡ (D.view disk).faults }
    ensures makes { Makes E.basis E.says result.status by_file D.told (outside (D.view disk) (S.left source.old) (S.faults source.old) (K.taken out.old) (K.faults out.old))
        (outside (D.view result.disk) (S.left source.new) (S.faults source.new) (K.taken out.new) (K.faults out.new)) result.refused }
    ensures said { SaysMade result.status (sunk (K.taken out.old) (K.faults out.old)) (sunk (K.taken out.new) (K.faults out.new)) }
    ensures apart { by_file ≡ false → source.new ≡ source.old }
    ensures heeded { (result.status ≡ Status.Disk → ⊥) → ((D.view result.disk).faults ≡ (D.view disk).faults) × (result.refused ≡ 0) }
    ensures spent { Spent None (D.view disk).calls (D.view result.disk).calls result.refused }
{
    match asked_sizes(alloc, by_file, source) {
        Ok(sizes) => init_behind_fuse::<D, K, O, E>(disk, None, &sizes, out),
        Err(why) => {
            let status = status_of_sizes(why);
            ended_beside(status, disk)
        }
    }
}

// Writes a workload, and says how that ended.
fn draw_workload<K: Sink>(seed: u64, count: u32, out: &mut K) -> Status
    ensures draws { Draws result (record { seed = seed; count = count }) (sunk (K.taken out.old) (K.faults out.old)) (sunk (K.taken out.new) (K.faults out.new)) }
{
    match write_workload(seed, count, out) {
        Ok(()) => Status::Done,
        Err(_) => Status::Write,
    }
}

// The end of a command that made no call of the disk.
fn ended_beside<D: Disk>(status: Status, disk: D) -> Finish<D>
    ensures { (result.status ≡ status) × (result.disk ≡ disk) × (result.refused ≡ 0) }
{
    Finish {
        status,
        disk,
        refused: 0,
    }
}

// Lists the log of the disk's store, with the end of that.
#[tactic(auto, using(crate::proofs::Logged::none_spent))]
fn list_beside<D: Disk, K: Sink>(alloc: Global, disk: D, out: &mut K) -> Finish<D>
    ensures lists { ListsLog result.status D.told (D.view disk) (D.view result.disk) (sunk (K.taken out.old) (K.faults out.old)) (sunk (K.taken out.new) (K.faults out.new)) }
    ensures heeded { (result.status ≡ Status.Disk → ⊥) → (D.view result.disk).faults ≡ (D.view disk).faults }
    ensures passed { result.refused ≡ 0 }
    ensures spent { Spent None (D.view disk).calls (D.view result.disk).calls result.refused }
{
    let mut disk = disk;
    let status = list_log(alloc, &mut disk, out);
    Finish {
        status,
        disk,
        refused: 0,
    }
}

// Writes what is asked for of the objects of the disk's store, which is opened for that and closed behind it.
fn objects_behind_fuse<
    R: Threads + Sync,
    D: Disk,
    K: Sink,
    O: Origin + Presumes,
    E: Opens<Fuse<D, O>>,
>(rt: &R, alloc: Global, ops: &Ops, disk: D, listing: Listing, out: &mut K) -> Finish<D>
    requires known { IsTrue O.known }
    requires passes { O.passes ≡ None }
    requires began { O.calls ≡ (D.view disk).calls }
    requires faults { O.faults ≡ (D.view disk).faults }
    requires presumed { IsPresumed E.basis E.says (table_of record_meaning range_meaning ops.now) D.told O.presumed (D.view disk) }
    ensures writes { WritesObjects E.basis E.says (text_for listing) (table_of record_meaning range_meaning ops.now) D.told O.presumed (refusing (D.view disk) 0)
        (refusing (D.view result.disk) result.refused) (sunk (K.taken out.old) (K.faults out.old)) (sunk (K.taken out.new) (K.faults out.new)) result.status }
    ensures heeded { (result.status ≡ Status.Disk → ⊥) → ((D.view result.disk).faults ≡ (D.view disk).faults) × (result.refused ≡ 0) }
    ensures spent { Spent None (D.view disk).calls (D.view result.disk).calls result.refused }
{
    let fuse = Fuse::<D, O>::marked(disk, None);
    let opened = match E::open(rt, alloc, ops, fuse) {
        Ok(store) => store,
        Err(Unopened { why, disk }) => {
            let status = status_of_refusal(why);
            return finished(status, disk);
        }
    };
    let mut store = opened;
    let written = write_objects(alloc, &mut store, listing, out);
    let (closed, engine) = store.close_unmarked();
    let status = status_of_closing(closed, written);
    finished(status, engine.into_disk())
}

/// Does what the words say, with the script that the source gives, over the disk: `run` and a folder,
/// which names the disk, runs the script with these operations over the store that the disk has, up to 64
/// of whose transactions are live at a time. The replies go to the sink. With `--stop-after` and a number
/// beside these the disk makes so many more calls at most: each later one fails, and doesn't touch
/// it. `init` and a folder make a store there of the usual sizes, write `ok`, and read no script. With `--geometry`
/// and a file beside these the source gives the text that says its sizes; where it says none that are fit the disk
/// isn't called. `dump` and a folder write the objects of the store that the disk has, and `check` and a folder what they come to: the store is
/// opened for that, and closed as it is. `log` and a folder write the listing of the log of the store that the disk has, which isn't opened for
/// that, and nothing to the disk. `gen`, a seed and a count write a workload to the sink, and make no call of the disk or the source.
/// Other words are `Status::Usage`, and touch nothing; words take memory to be read. A run ends with its
/// first fault, but for one of the disk: behind that each line is still answered.
///
/// A type `O` stands for what the stop lets pass, for the disk's counts at the call, and for what is presumed of
/// the disk, so that what it holds is known: that the image which reads give at the call stands for objects.
pub fn serve<
    R: Threads + Sync,
    D: Disk,
    S: Source,
    K: Sink,
    O: Origin + Presumes,
    E: Opens<Fuse<D, O>>,
>(
    rt: &R,
    alloc: Global,
    ops: Ops,
    words: &[String],
    disk: D,
    script: &mut S,
    out: &mut K,
) -> Finish<D>
    requires known { IsTrue O.known }
    requires passes { O.passes ≡ stop_after words.now }
    requires began { O.calls ≡ (D.view disk).calls }
    requires faults { O.faults ≡ (D.view disk).faults }
    requires presumed { IsPresumed E.basis E.says (table_of record_meaning range_meaning ops) D.told O.presumed (D.view disk) }
    ensures usage { result.status ≡ Status.Usage → are_served words.now ≡ false }
    ensures unused { are_served words.now ≡ false → ((result.status ≡ Status.Usage) ⊎ (result.status ≡ Status.Memory)) × (out.new ≡ out.old) }
    ensures apart { are_run words.now ≡ false → with_file words.now ≡ false → script.new ≡ script.old }
    ensures beside { call_disk words.now ≡ false → (result.disk ≡ disk) × (result.refused ≡ 0) }

    // The headline: one course of the run, its replies, what a crash leaves of it, the cause of its status, and that it is
    // done where nothing hinders it.
    ensures run { are_run words.now ≡ true → Account E.basis E.says (table_of record_meaning range_meaning ops) D.told O.presumed (outside (D.view disk) (S.left script.old) (S.faults script.old) (K.taken out.old) (K.faults out.old))
        (outside (D.view result.disk) (S.left script.new) (S.faults script.new) (K.taken out.new) (K.faults out.new)) result.refused result.status }

    // A new store: which sizes it has, what its status tells, and what a crash leaves at each moment.
    ensures made { are_init words.now ≡ true → Makes E.basis E.says result.status (with_file words.now) D.told (outside (D.view disk) (S.left script.old) (S.faults script.old) (K.taken out.old) (K.faults out.old))
        (outside (D.view result.disk) (S.left script.new) (S.faults script.new) (K.taken out.new) (K.faults out.new)) result.refused }
    ensures said { are_init words.now ≡ true → SaysMade result.status (sunk (K.taken out.old) (K.faults out.old)) (sunk (K.taken out.new) (K.faults out.new)) }

    // The objects, or what they come to: what the sink took of that, why it isn't done, and that a crash leaves the same objects.
    ensures objects { IfSome (listing_asked words.now) (λ listing. WritesObjects E.basis E.says (text_for listing) (table_of record_meaning range_meaning ops) D.told O.presumed (refusing (D.view disk) 0)
        (refusing (D.view result.disk) result.refused) (sunk (K.taken out.old) (K.faults out.old)) (sunk (K.taken out.new) (K.faults out.new)) result.status) }

    // The listing of a log: what the sink took of it, why it isn't done, and that the disk is as it was.
    ensures listed { are_log words.now ≡ true → ListsLog result.status D.told (D.view disk) (D.view result.disk) (sunk (K.taken out.old) (K.faults out.old)) (sunk (K.taken out.new) (K.faults out.new)) }

    // A workload: what the sink took of it, by its status.
    ensures drawn { IfSome (drawn words.now) (λ d. Draws result.status d (sunk (K.taken out.old) (K.faults out.old)) (sunk (K.taken out.new) (K.faults out.new))) }

    // A fault of the disk, and a call that is refused, give their status.
    ensures heeded { (result.status ≡ Status.Disk → ⊥) → ((D.view result.disk).faults ≡ (D.view disk).faults) × (result.refused ≡ 0) }

    // The stop: no more calls than it lets pass, and one refused only behind exactly so many.
    ensures spent { Spent (stop_after words.now) (D.view disk).calls (D.view result.disk).calls result.refused }
{
    match read_command(alloc, words) {
        Ok(Command::Run { stop_after }) => {
            run_behind_fuse::<R, D, S, K, O, E>(rt, alloc, &ops, disk, stop_after, script, out)
        }
        Ok(Command::Init { geometry }) => init::<D, S, K, O, E>(alloc, disk, geometry, script, out),
        Ok(Command::Dump) => {
            objects_behind_fuse::<R, D, K, O, E>(rt, alloc, &ops, disk, Listing::Text, out)
        }
        Ok(Command::Check) => {
            objects_behind_fuse::<R, D, K, O, E>(rt, alloc, &ops, disk, Listing::Summary, out)
        }
        Ok(Command::Log) => list_beside(alloc, disk, out),
        Ok(Command::Gen { seed, count }) => {
            let status = draw_workload(seed, count, out);
            ended_beside(status, disk)
        }
        Err(WordsError::Usage) => ended_beside(Status::Usage, disk),
        Err(WordsError::Memory) => ended_beside(Status::Memory, disk),
    }
}
