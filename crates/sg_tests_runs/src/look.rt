// The objects of a store, written by the program, and what they come to.
use crate::trial::{Host, Left, are_same, copy_of, done, new_store, run_from};
use sg_base::{Area, MemSource};
use sg_disk::{CallKind, MemDisk};
use sg_top::Status;

// Scripts over a new store and their replies, the objects that they leave, and what these come to.
const ROWS: [(&str, &str, &str, &str); 4] = [
    (
        "",
        "",
        "objects 0\n",
        "objects 0 items 0 entries 0 bytes 0 sum 0\n",
    ),
    (
        "t begin\nt make array a 3\nt push a abc\nt commit\nu begin\nu push a xyz",
        "ok\nok\nok 0\nok\nok\nok 1\n",
        "array a 3 1\n 0 abc\nobjects 1\n",
        "objects 1 items 1 entries 0 bytes 0 sum 294\n",
    ),
    // a blob of zeros alone has no pieces
    (
        "t begin\nt make array a 1\nt push a 1\nt make blob b\nt size b 600\nt commit",
        "ok\nok\nok 0\nok\nok\nok\n",
        "array a 1 1\n 0 1\nblob b 600\nobjects 2\n",
        "objects 2 items 1 entries 0 bytes 600 sum 49\n",
    ),
    // one of each kind, with a value that is empty, one that is no text, and one that begins as the digits of bytes do
    (
        "s begin\ns make array a 1\ns push a x:00\ns make blob b\ns write b 0 hello\ns make table t\n\
         s put t a x:\ns put t b x:c3a9\ns put t c x:783a79\ns keys t\ns list\ns commit",
        "ok\nok\nok 0\nok\nok\nok\nok new\nok new\nok new\nok 3 a b c\nok 3 a b t\nok\n",
        "array a 1 1\n 0 x:00\nblob b 5\n 0 x:68656c6c6f\ntable t 3\n a x:\n b x:c3a9\n c x:783a79\nobjects 3\n",
        "objects 3 items 1 entries 3 bytes 5 sum 1489\n",
    ),
];

// Where page 0 begins in the home area. A page's kind is behind the 8 bytes of its number.
const PAGES: usize = 143_360;

// What is left of a look at a copy of this disk, by these words. Its source may not be read, and the sink's n-th call fails where n is given.
fn look(rt: &impl Host, words: &str, disk: &MemDisk, sink_fails: Option<u64>) -> Option<Left> {
    let disk = copy_of(rt, disk)?;
    let mut source = MemSource::new(Vec::new(rt.alloc()), 8, Some(1));
    run_from(rt, words, disk, &mut source, sink_fails)
}

// Whether a look writes this, and leaves the disk of a store that was closed well as it was.
fn shows(rt: &impl Host, words: &str, disk: &MemDisk, text: &str) -> bool {
    match look(rt, words, disk, None) {
        Some(left) => left.is(Status::Done, text.as_bytes()) && are_same(&left.disk, disk),
        None => false,
    }
}

// Whether the objects that a script leaves are written so, and what they come to.
fn row_goes(rt: &impl Host, script: &str, replies: &str, text: &str, sum: &str) -> Option<bool> {
    let store = new_store(rt)?;
    let disk = done(rt, store, script.as_bytes(), replies.as_bytes())?;
    let written = shows(rt, "dump store", &disk, text);
    Some(written && shows(rt, "check store", &disk, sum))
}

// The number of the first row that goes otherwise.
fn first_wrong(rt: &impl Host) -> Option<usize> {
    for (number, (script, replies, text, sum)) in ROWS.iter().enumerate() {
        if row_goes(rt, script, replies, text, sum) != Some(true) {
            return Some(number);
        }
    }
    None
}

#[test]
fn objects_are_written_and_summed(rt: HostRuntime) {
    assert_eq!(rt; first_wrong(&rt), None);
}

// Whether a look ends so with this text.
fn ends(
    rt: &impl Host,
    words: &str,
    disk: &MemDisk,
    sink_fails: Option<u64>,
    status: Status,
    text: &str,
) -> bool {
    match look(rt, words, disk, sink_fails) {
        Some(left) => left.is(status, text.as_bytes()),
        None => false,
    }
}

// Whether zeros are no store for a look, and a superblock with a wrong magic is told with its place.
fn refusals_go(rt: &impl Host, words: &str) -> Option<[bool; 2]> {
    let none = MemDisk::new(rt.alloc());
    let mut home = new_store(rt)?.home().to_vec(rt.alloc()).ok()?;
    if home.len() > 1 {
        home[1] = 0;
    }
    let spoiled = MemDisk::of(rt.alloc(), home, Vec::new(rt.alloc()), Vec::new(rt.alloc()));
    let damage = Status::Damaged(Area::Home, 1);
    Some([
        ends(rt, words, &none, None, Status::NotAStore, ""),
        ends(rt, words, &spoiled, None, damage, ""),
    ])
}

// Whether the catalogue's first page is told by its first byte where it is of another kind.
fn spoiled_page_goes(rt: &impl Host, words: &str) -> Option<bool> {
    let (script, replies, _, _) = ROWS[1];
    let store = new_store(rt)?;
    let disk = done(rt, store, script.as_bytes(), replies.as_bytes())?;
    let mut home = disk.home().to_vec(rt.alloc()).ok()?;
    if home.len() > PAGES + 8 {
        home[PAGES + 8] = 99;
    }
    let log0 = disk.log0().to_vec(rt.alloc()).ok()?;
    let spoiled = MemDisk::of(rt.alloc(), home, log0, Vec::new(rt.alloc()));
    let damage = Status::Damaged(Area::Home, PAGES as u64);
    Some(ends(rt, words, &spoiled, None, damage, ""))
}

// How a look ends where the disk's first read fails.
fn cut_by_disk(rt: &impl Host, words: &str) -> Option<Status> {
    let mut disk = new_store(rt)?;
    disk.fail(CallKind::Read, 1);
    let mut source = MemSource::new(Vec::new(rt.alloc()), 8, Some(1));
    let left = run_from(rt, words, disk, &mut source, None)?;
    Some(left.status)
}

// Whether a sink that fails is told, and what it took before: the first lines of the objects of the last row, or nothing.
fn cuts_go(rt: &impl Host) -> Option<[bool; 2]> {
    let (script, replies, _, _) = ROWS[3];
    let store = new_store(rt)?;
    let disk = done(rt, store, script.as_bytes(), replies.as_bytes())?;
    let front = "array a 1 1\n 0 x:00\n";
    Some([
        ends(rt, "dump store", &disk, Some(3), Status::Write, front),
        ends(rt, "check store", &disk, Some(1), Status::Write, ""),
    ])
}

#[test]
fn what_fails_in_a_look_is_told(rt: HostRuntime) {
    for words in ["dump store", "check store"] {
        assert_eq!(rt; refusals_go(&rt, words), Some([true, true]));
        assert_eq!(rt; spoiled_page_goes(&rt, words), Some(true));
        assert_eq!(rt; cut_by_disk(&rt, words), Some(Status::Disk));
    }
    assert_eq!(rt; cuts_go(&rt), Some([true, true]));
}
