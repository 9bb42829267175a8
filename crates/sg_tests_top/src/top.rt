ghost use Rattle.std.specs.Prelude.{None, ◌<◌};

use crate::trial::{Host, Left, answered, copy_of, goes, new_store, run, run_from, run_in_pieces};
use sg_base::{Failed, MemSource, Source};
use sg_disk::{CallKind, MemDisk};
use sg_top::Status;
use std::alloc::AllocError;

const FIRST: &str = "t begin\nt make array a 3\nt push a abc\nt set a 0 xyz\nt get a 0\nt commit";

const FIRST_REPLIES: &str = "ok\nok\nok 0\nok\nok xyz\nok\n";

// Whether the first script gets its replies where it comes in pieces of so many bytes.
fn pieces_go(rt: &impl Host, piece: usize) -> bool {
    if piece == 0 {
        return false;
    }
    match new_store(rt) {
        Some(disk) => match run_in_pieces(rt, "run store", disk, FIRST.as_bytes(), piece) {
            Some(left) => left.is(Status::Done, FIRST_REPLIES.as_bytes()),
            None => false,
        },
        None => false,
    }
}

#[test]
fn the_first_script_in_any_pieces(rt: HostRuntime) {
    for piece in [1usize, 2, 3, 7, 65_536] {
        assert!(rt; pieces_go(&rt, piece));
    }
}

// Each script and its replies.
const HOSTILE: [(&str, &str); 16] = [
    ("", ""),
    ("\n\n", ""),
    ("# t begin\n", ""),
    ("t begin\r\nt commit\r", "ok\nok\n"),
    ("t", "error syntax\n"),
    ("t end", "error syntax\n"),
    ("begin t", "error syntax\n"),
    ("t commit", "error no-transaction\n"),
    (
        "t begin\nt begin\nu abort\nu commit",
        "ok\nerror live\nerror no-transaction\nerror no-transaction\n",
    ),
    (
        "t begin\nt get a 99999999999999999999",
        "ok\nerror syntax\n",
    ),
    (
        "t begin\nt get a 000000000000000000000",
        "ok\nerror syntax\n",
    ),
    (
        "t begin\nt make array a 3\nt push a x:61zz\nt push a x:616",
        "ok\nok\nerror syntax\nerror syntax\n",
    ),
    (
        "t begin\nt make array abcdefghijklmnopqrstuvwxyzabcdef 3",
        "ok\nok\n",
    ),
    (
        "t begin\nt make array abcdefghijklmnopqrstuvwxyzabcdefg 3",
        "ok\nerror syntax\n",
    ),
    (
        "t begin\nt get a 0\nt push a x\nt make array a 3\nt make array a 3",
        "ok\nerror no-object\nerror no-object\nok\nerror exists\n",
    ),
    (
        "t begin\nt make array a 3\nt push a ab\nt get a 1\nt set a 0 wxyz",
        "ok\nok\nerror declined\nerror out-of-range\nerror out-of-range\n",
    ),
];

// The number of the first script that is answered otherwise.
fn first_wrong(rt: &impl Host) -> Option<usize> {
    for (number, (script, replies)) in HOSTILE.iter().enumerate() {
        if !goes(rt, script.as_bytes(), Status::Done, replies.as_bytes()) {
            return Some(number);
        }
    }
    None
}

#[test]
fn hostile_lines(rt: HostRuntime) {
    assert_eq!(rt; first_wrong(&rt), None);
}

// So many spaces, and these bytes behind them.
fn spaces(rt: &impl Host, count: usize, behind: &[u8]) -> Result<Vec<u8>, AllocError> {
    let mut script = vec![in rt.alloc(); b' '; count]?;
    script.extend_from_slice(behind)?;
    Ok(script)
}

// Whether such a script is answered so.
fn spaces_go(rt: &impl Host, count: usize, behind: &[u8], replies: &[u8]) -> bool {
    match spaces(rt, count, behind) {
        Ok(script) => goes(rt, &script, Status::Done, replies),
        Err(_) => false,
    }
}

#[test]
fn the_longest_line(rt: HostRuntime) {
    let longest = spaces_go(&rt, 32_768, b"", b"");
    let longer = spaces_go(&rt, 32_769, b"\nt begin", b"error syntax\nok\n");
    assert_eq!(rt; [longest, longer], [true, true]);
}

// Whether the words are no command, and nothing is asked of the disk.
fn are_no_command(rt: &impl Host, words: &str) -> bool {
    match run_in_pieces(rt, words, MemDisk::new(rt.alloc()), b"t begin", 8) {
        Some(left) => left.status == Status::Usage && left.disk.call_count() == 0,
        None => false,
    }
}

#[test]
fn other_words_are_no_command(rt: HostRuntime) {
    for words in "run,runs store,run store more,store run,init store more,init,gen 7 0,gen 7,help".split(
        ',',
    ) {
        assert!(rt; are_no_command(&rt, words));
    }
}

// How a workload of seed 0 with two lines that are drawn ends: these as another program drew them, and the commit of who is live.
const DRAWN: &[u8] = b"\ns commit\nt2 begin\nt2 paint b 19462 1436 2 x:4d\nt2 commit\n";

// Whether a workload is written, and nothing is asked of the disk: six lines and 64 pushes come first.
fn workload_goes(rt: &impl Host) -> bool {
    match run_in_pieces(rt, "gen 0 2", MemDisk::new(rt.alloc()), b"t begin", 8) {
        Some(left) => {
            left.status == Status::Done
                && left.disk.call_count() == 0
                && left.replies().starts_with(b"s begin\ns make array a 8\n")
                && left.replies().ends_with(DRAWN)
                && left.replies().split(|byte| *byte == b'\n').count() == 74
        }
        None => false,
    }
}

#[test]
fn a_workload_is_written(rt: HostRuntime) {
    assert!(rt; workload_goes(&rt));
}

// What a run over a new store leaves whose source comes in pieces of so many bytes, where a call of the source or of the sink fails.
fn run_failing(
    rt: &impl Host,
    script: &[u8],
    piece: usize,
    source_fails: Option<u64>,
    sink_fails: Option<u64>,
) -> Option<Left>
    requires { 0 < piece }
{
    let disk = new_store(rt)?;
    match script.to_vec(rt.alloc()) {
        Ok(text) => {
            let mut source = MemSource::new(text, piece, source_fails);
            run_from(rt, "run store", disk, &mut source, sink_fails)
        }
        Err(_) => None,
    }
}

// Whether a run ends so whose source fails at the third call.
fn failing_source_goes(rt: &impl Host) -> bool {
    match run_failing(rt, b"t begin\nt commit", 8, Some(3), None) {
        Some(left) => left.is(Status::Read, b"ok\n"),
        None => false,
    }
}

#[test]
fn a_source_that_fails(rt: HostRuntime) {
    assert!(rt; failing_source_goes(&rt));
}

// Whether a run ends so whose sink fails at the second call.
fn failing_sink_goes(rt: &impl Host) -> bool {
    let script = b"t begin\nt commit\nu begin\nu commit";
    match run_failing(rt, script, 64, None, Some(2)) {
        Some(left) => left.is(Status::Write, b"ok\n"),
        None => false,
    }
}

#[test]
fn a_sink_that_fails(rt: HostRuntime) {
    assert!(rt; failing_sink_goes(&rt));
}

// Whether a run over a new store ends with one fault of the disk and these replies where the nth call of that kind fails.
fn failing_disk_goes(rt: &impl Host, kind: CallKind, nth: u64, replies: &[u8]) -> bool {
    match new_store(rt).and_then(|disk| copy_of(rt, &disk)) {
        Some(disk) => {
            let mut disk = disk;
            disk.fail(kind, nth);
            match run(rt, disk, b"t begin\nt commit\nu begin\nu commit\nv begin") {
                Some(left) => left.is(Status::Disk, replies) && left.disk.fault_count() == 1,
                None => false,
            }
        }
        None => false,
    }
}

// An opening of a new store writes nothing, and a commit writes twice.
#[test]
fn a_disk_that_fails(rt: HostRuntime) {
    let replies = b"ok\nok\nok\nerror disk\nerror stopped\n";
    assert!(rt; failing_disk_goes(&rt, CallKind::Write, 3, replies));
    assert!(rt; failing_disk_goes(&rt, CallKind::Sync, 1, b""));
}

// A source of so many bytes that it doesn't hold, each piece of which ends a line.
#[derive(Drop)]
struct LongLines {
    left: u64,
}

impl Source for LongLines {
    ghost left = { λ s. None };

    ghost faults = { λ s. 0 };

    fn read(&mut self, into: &mut [u8]) -> Result<usize, Failed> {
        let n = into.len().min(65_536).min(self.left as usize);
        into[..n].fill(b' ');
        if n > 0 {
            into[n - 1] = b'\n';
        }
        self.left -= n as u64;
        Ok(n)
    }
}

// How a script of so many bytes ends.
fn end_of_long(rt: &impl Host, size: u64) -> Option<Status> {
    let mut source = LongLines { left: size };
    let disk = new_store(rt)?;
    let left = run_from(rt, "run store", disk, &mut source, None)?;
    Some(left.status)
}

#[test]
fn a_script_has_a_greatest_length(rt: HostRuntime) {
    let ends = [end_of_long(&rt, 268_435_456), end_of_long(&rt, 268_435_457)];
    assert_eq!(rt; ends, [Some(Status::Done), Some(Status::TooLong)]);
}

// Whether a session that answers the first script ends so, with these replies.
fn session_goes(rt: &impl Host, sink_fails: Option<u64>, status: Status, replies: &[u8]) -> bool {
    match answered(rt, FIRST, sink_fails) {
        Some(left) => left.is(status, replies),
        None => false,
    }
}

#[test]
fn a_session_answers_each_line(rt: HostRuntime) {
    assert!(rt; session_goes(&rt, None, Status::Done, FIRST_REPLIES.as_bytes()));
    // The sink fails at the third line, and later lines are answered to no one.
    assert!(rt; session_goes(&rt, Some(3), Status::Write, b"ok\nok\n"));
}
