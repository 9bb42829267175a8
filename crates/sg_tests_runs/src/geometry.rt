// A new store of sizes that a file says.
use crate::trial::{Host, Left, copy_of, new_store, run_from, run_goes, run_in_pieces};
use sg_base::MemSource;
use sg_disk::MemDisk;
use sg_top::Status;

const WORDS: &str = "init store --geometry file";

// The least sizes.
const LEAST: &[u8] = b"windows = 4\nframes = 32\nbands = 4\npages = 64\n";

// The first bytes of the home area of a new store of these: the open gate, the magic word, the version, the sequence, the pages, bands, frames and
// windows, the log and where it begins.
const HEAD: [u8; 44] = [
    1, b'S', b'T', b'A', b'S', b'I', b'S', b'S', b'G', 1, 0, 1, 0, 0, 0, 0, 0, 0, 0, 64, 0, 0, 0,
    4, 0, 0, 0, 32, 0, 0, 0, 4, 0, 0, 0, 0, 0, 0, 0, 0, 0, 0, 0, 0,
];

// What is left of making a store of the sizes that a text says, on a disk without one.
fn made(rt: &impl Host, text: &[u8]) -> Option<Left> {
    run_in_pieces(rt, WORDS, MemDisk::new(rt.alloc()), text, 7)
}

// Whether the disk begins with these bytes.
fn begins(disk: &MemDisk, head: &[u8]) -> bool {
    disk.home().starts_with(head)
}

// Whether a store of the least sizes is made so, and answers a script whose array needs more pages than it has.
fn least_goes(rt: &impl Host) -> Option<bool> {
    let left = made(rt, LEAST)?;
    let is_made = left.is(Status::Done, b"ok\n") && begins(&left.disk, &HEAD);
    let script =
        b"t begin\nt make blob b\nt size b 98304\nt size b 98305\nt write b 98303 z\nt commit";
    let replies = b"ok\nok\nok\nerror no-bands 0 1\nok\nok\n";
    Some(is_made && run_goes(rt, left.disk, script, Status::Done, replies))
}

#[test]
fn a_store_of_the_least_sizes(rt: HostRuntime) {
    assert_eq!(rt; least_goes(&rt), Some(true));
}

// Texts, and how making a store of their sizes ends.
const TEXTS: [(&[u8], Status); 7] = [
    (b"", Status::Done),
    (b"pages = 64\n", Status::Done),
    (b"pages = 63\n", Status::BadGeometry),
    (b"pages = 64\npages = 64\n", Status::BadGeometry),
    (b"depth = 64\n", Status::BadGeometry),
    (b"pages = \n", Status::BadGeometry),
    (b"t begin\n", Status::BadGeometry),
];

// Whether a text has that end, and makes no call of the disk where it is bad.
fn text_goes(rt: &impl Host, text: &[u8], end: Status) -> bool {
    match made(rt, text) {
        Some(left) if end == Status::Done => left.is(end, b"ok\n"),
        Some(left) => left.is(end, b"") && left.disk.call_count() == 0,
        None => false,
    }
}

// The number of the first text that has another end.
fn first_wrong(rt: &impl Host) -> Option<usize> {
    for (number, (text, end)) in TEXTS.iter().enumerate() {
        if !text_goes(rt, text, *end) {
            return Some(number);
        }
    }
    None
}

#[test]
fn a_text_that_says_no_sizes_is_bad(rt: HostRuntime) {
    assert_eq!(rt; first_wrong(&rt), None);
}

// How making one ends on a disk that has a store, and whether that is as it was.
fn end_over_a_store(rt: &impl Host, text: &[u8]) -> Option<(Status, bool)> {
    let store = new_store(rt)?;
    let left = run_in_pieces(rt, WORDS, copy_of(rt, &store)?, text, 7)?;
    let same = left.disk.home() == store.home() && left.replies().is_empty();
    Some((left.status, same))
}

// A bad text is answered before it is seen that there is a store.
#[test]
fn a_store_is_kept(rt: HostRuntime) {
    assert_eq!(rt; end_over_a_store(&rt, LEAST), Some((Status::Exists, true)));
    assert_eq!(rt;
        end_over_a_store(&rt, b"pages = 63"),
        Some((Status::BadGeometry, true))
    );
}

// How making one ends where the source's n-th read fails, and how many calls of the disk it made.
fn end_of_failed(rt: &impl Host, fails: u64) -> Option<(Status, u64)> {
    match LEAST.to_vec(rt.alloc()) {
        Ok(text) => {
            let mut source = MemSource::new(text, 20, Some(fails));
            let left = run_from(rt, WORDS, MemDisk::new(rt.alloc()), &mut source, None)?;
            Some((left.status, left.disk.call_count()))
        }
        Err(_) => None,
    }
}

// Three reads give the text, and the fourth finds its end.
#[test]
fn a_source_that_fails_says_no_sizes(rt: HostRuntime) {
    for fails in 1..5u64 {
        assert_eq!(rt; end_of_failed(&rt, fails), Some((Status::Read, 0)));
    }
}
