use crate::trial::{Host, copy_of, done, new_store, run, run_goes, run_in_pieces};
use sg_base::Area;
use sg_disk::{CallKind, MemDisk};
use sg_top::Status;

const LOOK: &[u8] = b"u begin\nu get a 0\nu get a 1";

// Whether a second run reads what the first committed, and nothing else.
fn second_run_goes(rt: &impl Host) -> Option<bool> {
    let script =
        b"t begin\nt make array a 3\nt push a abc\nt set a 0 xyz\nt commit\nt begin\nt set a 0 old";
    let disk = done(
        rt,
        new_store(rt)?,
        script,
        b"ok\nok\nok 0\nok\nok\nok\nok\n",
    )?;
    let replies = b"ok\nok xyz\nerror out-of-range\n";
    Some(run_goes(rt, disk, LOOK, Status::Done, replies))
}

#[test]
fn a_second_run_reads_what_the_first_left(rt: HostRuntime) {
    assert_eq!(rt; second_run_goes(&rt), Some(true));
}

// Whether a second run reads what the first committed behind a way back, and nothing of what it took back.
fn run_behind_marks_goes(rt: &impl Host) -> Option<bool> {
    let script = b"t begin\nt make array a 1\nt push a x\nt save\nt push a y\nt set a 0 z\n\
        t back 1\nt push a w\nt commit\nt begin\nt save\nt set a 0 o\nt back 1\nt set a 1 p";
    let replies = b"ok\nok\nok 0\nok 1\nok 1\nok\nok\nok 1\nok\nok\nok 1\nok\nok\nok\n";
    let disk = done(rt, new_store(rt)?, script, replies)?;
    let replies = b"ok\nok x\nok w\n";
    Some(run_goes(rt, disk, LOOK, Status::Done, replies))
}

#[test]
fn a_second_run_reads_nothing_that_was_taken_back(rt: HostRuntime) {
    assert_eq!(rt; run_behind_marks_goes(&rt), Some(true));
}

// How a store is made of the sizes that one has where none are given, made again, and run over.
fn made_by_words(rt: &impl Host) -> Option<[Status; 3]> {
    let first = run_in_pieces(rt, "init store", MemDisk::new(rt.alloc()), b"t begin", 8)?;
    let said = first.replies() == b"ok\n".as_slice();
    let made = if said { first.status } else { Status::Usage };
    let second = run_in_pieces(rt, "init store", first.disk, b"t begin", 8)?;
    let again = second.status;
    let third = run(rt, second.disk, b"t begin\nt commit")?;
    Some([made, again, third.status])
}

#[test]
fn a_store_is_made_once(rt: HostRuntime) {
    let ends = [Status::Done, Status::Exists, Status::Done];
    assert_eq!(rt; made_by_words(&rt), Some(ends));
}

// How a run over a disk of zeros ends.
fn end_of_none(rt: &impl Host) -> Option<Status> {
    let left = run(rt, MemDisk::new(rt.alloc()), LOOK)?;
    Some(left.status)
}

#[test]
fn without_a_store_no_run_begins(rt: HostRuntime) {
    assert_eq!(rt; end_of_none(&rt), Some(Status::NotAStore));
}

// Puts another byte there.
fn spoil(bytes: &mut [u8], at: usize, byte: u8) {
    if at < bytes.len() {
        bytes[at] = byte;
    }
}

// How a run ends over a new store with another byte at this place of its home area.
fn end_of_spoiled(rt: &impl Host, at: usize, byte: u8) -> Option<Status> {
    let store = new_store(rt)?;
    if let Ok(home) = store.home().to_vec(rt.alloc())
        && let Ok(log) = store.log0().to_vec(rt.alloc())
    {
        let mut home = home;
        spoil(&mut home, at, byte);
        let disk = MemDisk::of(rt.alloc(), home, log, Vec::new(rt.alloc()));
        let left = run(rt, disk, LOOK)?;
        Some(left.status)
    } else {
        None
    }
}

// The magic of the superblock, a byte that nothing reads, and the gate of a slot.
#[test]
fn a_wrong_superblock_is_answered_with_its_place(rt: HostRuntime) {
    let damaged = Some(Status::Damaged(Area::Home, 1));
    assert_eq!(rt; end_of_spoiled(&rt, 1, 0), damaged);
    assert_eq!(rt; end_of_spoiled(&rt, 100, 7), Some(Status::Done));
    assert_eq!(rt; end_of_spoiled(&rt, 0, 0), Some(Status::NotAStore));
}

// A run that pushes an item of this number.
fn pushed(rt: &impl Host, disk: MemDisk, number: u8) -> Option<MemDisk> {
    if let Ok(script) = format!(in rt.alloc(); "t begin\nt push a {number}\nt commit")
        && let Ok(replies) = format!(in rt.alloc(); "ok\nok {number}\nok\n")
    {
        done(rt, disk, script.as_bytes(), replies.as_bytes())
    } else {
        None
    }
}

// Ten runs behind the one that makes the array.
fn pushed_ten_times(rt: &impl Host) -> Option<MemDisk> {
    let script = b"t begin\nt make array a 1\nt commit";
    let mut disk = done(rt, new_store(rt)?, script, b"ok\nok\nok\n")?;
    for number in 0..10u8 {
        disk = pushed(rt, disk, number)?;
    }
    Some(disk)
}

// Whether a last run reads what they pushed.
fn ten_go(rt: &impl Host) -> bool {
    let script = b"t begin\nt get a 0\nt get a 9\nt get a 10";
    match pushed_ten_times(rt) {
        Some(disk) => run_goes(
            rt,
            disk,
            script,
            Status::Done,
            b"ok\nok 0\nok 9\nerror out-of-range\n",
        ),
        None => false,
    }
}

#[test]
fn a_store_is_opened_ten_times(rt: HostRuntime) {
    assert!(rt; ten_go(&rt));
}

// The disk of a run over a new store whose third write, the second commit's first one, fails.
fn failed_commit(rt: &impl Host) -> Option<MemDisk> {
    let script = b"t begin\nt make array a 1\nt commit\nu begin\nu push a x\nu commit\nv begin";
    let store = new_store(rt)?;
    let mut disk = copy_of(rt, &store)?;
    disk.fail(CallKind::Write, 3);
    match run(rt, disk, script) {
        Some(left)
            if left.is(
                Status::Disk,
                b"ok\nok\nok\nok\nok 0\nerror disk\nerror stopped\n",
            ) => Some(left.disk),
        _ => None,
    }
}

// Whether what that run failed to commit isn't there after a crash.
fn failed_commit_goes(rt: &impl Host, pick: u64) -> bool {
    match failed_commit(rt) {
        Some(disk) => run_goes(
            rt,
            disk.crash(pick),
            b"u begin\nu get a 0",
            Status::Done,
            b"ok\nerror out-of-range\n",
        ),
        None => false,
    }
}

#[test]
fn a_commit_that_failed_is_not_there(rt: HostRuntime) {
    for pick in 0..4u64 {
        assert!(rt; failed_commit_goes(&rt, pick));
    }
}
