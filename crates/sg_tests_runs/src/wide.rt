// A script whose pages and bands exceed the frames and windows many times, with aborts. A verb there changes more than memory has room for, so that a
// stop finds its records in the log, and its bytes in pages and bands, before it is done; and an abort as long as that is stopped in its middle too.
use crate::trial::{Host, acknowledged, copy_of, new_store_of, run, run_stopped};
use sg_disk::MemDisk;
use sg_making::Geometry;
use std::alloc::AllocError;
use std::test::Fail;

// 32 pages and 4 bands are in memory at a time. The entries of the table want more than 40 pages, and the blob 13 bands.
const SIZES: Geometry = Geometry {
    pages: 256,
    bands: 24,
    frames: 32,
    windows: 4,
};

// How many entries the table has, and how many letters the value of each.
const ENTRIES: u32 = 120;

const LETTERS: u32 = 1000;

// The value with this letter.
fn value_of(rt: &impl Host, letter: char) -> Result<String, AllocError> {
    let mut value = String::new(rt.alloc());
    for _ in 0..LETTERS {
        value.push(letter)?;
    }
    Ok(value)
}

// The lines by which a transaction gives each key the value with the letter of its name.
fn push_puts(rt: &impl Host, script: &mut String, name: char) -> Result<(), AllocError> {
    let value = value_of(rt, name)?;
    for key in 0..ENTRIES {
        script.push_str(&format!(in rt.alloc(); "{name} put h k{key} {value}\n")?)?;
    }
    Ok(())
}

// Four commits. p makes the objects. While u gives the keys new values and commits, t has painted the whole blob, and aborts. While w paints a part of the
// blob and commits, v has given the keys new values, and aborts. x has changed all when z commits, and is left.
fn script(rt: &impl Host) -> Result<String, AllocError> {
    let mut script = String::new(rt.alloc());
    script.push_str("p begin\np make table h\np make blob b\np size b 400000\n")?;
    push_puts(rt, &mut script, 'p')?;
    script.push_str("p commit\nt begin\nu begin\nt paint b 0 400000 1 T\n")?;
    push_puts(rt, &mut script, 'u')?;
    script.push_str("t abort\nu commit\nv begin\nw begin\n")?;
    push_puts(rt, &mut script, 'v')?;
    script.push_str("w paint b 100000 200000 2 x:05\nw commit\nv abort\nx begin\n")?;
    push_puts(rt, &mut script, 'x')?;
    script.push_str(
        "x size b 1000\nx paint b 0 1000 1 X\nz begin\nz make array a 1\nz commit\nx push a x",
    )?;
    Ok(script)
}

// Places in the blob, the eight bytes there before the third commit, and behind it: byte p is then p + 5 modulo 256, from 100,000 to 299,999.
const READS: [(u32, &str, &str); 6] = [
    (0, "x:0000000000000000", "x:0000000000000000"),
    (32_764, "x:0000000000000000", "x:0000000000000000"),
    (99_996, "x:0000000000000000", "x:00000000a5a6a7a8"),
    (131_068, "x:0000000000000000", "x:0102030405060708"),
    (299_996, "x:0000000000000000", "x:e1e2e3e400000000"),
    (399_992, "x:0000000000000000", "x:0000000000000000"),
];

// The lines that look at the objects. Of the entries each eleventh is read.
fn look(rt: &impl Host) -> Result<String, AllocError> {
    let mut lines = String::new(rt.alloc());
    lines.push_str("s begin\ns list\ns len b\n")?;
    for (at, _, _) in &READS {
        lines.push_str(&format!(in rt.alloc(); "s read b {at} 8\n")?)?;
    }
    for key in 0..ENTRIES {
        if key % 11 == 0 {
            lines.push_str(&format!(in rt.alloc(); "s find h k{key}\n")?)?;
        }
    }
    Ok(lines)
}

// What they are answered where the objects are those after the first so many commits.
fn answers_after(rt: &impl Host, commits: usize) -> Result<String, AllocError> {
    let mut replies = String::new(rt.alloc());
    replies.push_str(match commits {
        0 => "ok\nok 0\nerror no-object\n",
        4 => "ok\nok 3 a b h\nok 400000\n",
        _ => "ok\nok 2 b h\nok 400000\n",
    })?;
    push_reads(rt, &mut replies, commits)?;
    push_values(rt, &mut replies, commits)?;
    Ok(replies)
}

// The same of the places in the blob.
fn push_reads(rt: &impl Host, replies: &mut String, commits: usize) -> Result<(), AllocError> {
    for (_, before, behind) in &READS {
        let reply = match commits {
            0 => format!(in rt.alloc(); "error no-object\n")?,
            1 | 2 => format!(in rt.alloc(); "ok {before}\n")?,
            _ => format!(in rt.alloc(); "ok {behind}\n")?,
        };
        replies.push_str(&reply)?;
    }
    Ok(())
}

// And of the entries.
fn push_values(rt: &impl Host, replies: &mut String, commits: usize) -> Result<(), AllocError> {
    let value = value_of(rt, if commits < 2 { 'p' } else { 'u' })?;
    for key in 0..ENTRIES {
        if key % 11 == 0 {
            let reply = if commits == 0 {
                format!(in rt.alloc(); "error no-object\n")?
            } else {
                format!(in rt.alloc(); "ok {value}\n")?
            };
            replies.push_str(&reply)?;
        }
    }
    Ok(())
}

// The script, the lines that look, and what these are answered after each number of commits.
#[derive(Drop)]
struct Texts {
    script: String,
    look: String,
    after: [String; 5],
}

impl Texts {
    fn new(rt: &impl Host) -> Result<Texts, AllocError> {
        Ok(Texts {
            script: script(rt)?,
            look: look(rt)?,
            after: [
                answers_after(rt, 0)?,
                answers_after(rt, 1)?,
                answers_after(rt, 2)?,
                answers_after(rt, 3)?,
                answers_after(rt, 4)?,
            ],
        })
    }
}

// The number of commits whose objects a store over this disk shows, where it opens and shows those of some.
fn commits_shown(rt: &impl Host, texts: &Texts, disk: MemDisk) -> Option<usize> {
    let left = run(rt, disk, texts.look.as_bytes())?;
    texts
        .after
        .iter()
        .position(|replies| replies.as_bytes() == left.replies())
}

// How many calls a run of this script over a copy of the store makes.
fn calls_of(rt: &impl Host, store: &MemDisk, script: &[u8]) -> Option<u64> {
    let left = run(rt, copy_of(rt, store)?, script)?;
    Some(left.disk.call_count())
}

// Whether a store that shows so many commits shows as many once its opening was stopped at a third and at two thirds of its calls, and short of its last.
fn openings_show(
    rt: &impl Host,
    texts: &Texts,
    store: &MemDisk,
    shown: usize,
    pick: u64,
) -> Option<bool> {
    let all = calls_of(rt, store, b"")?;
    for calls in [all / 3, all / 3 * 2, all.saturating_sub(1)] {
        let left = run_stopped(rt, copy_of(rt, store)?, b"", calls)?;
        if commits_shown(rt, texts, left.disk.crash(pick))? != shown {
            return Some(false);
        }
    }
    Some(true)
}

// Whether a run that makes so many calls leaves, behind a crash, a store that shows the acknowledged commits, or one more, however its opening is stopped.
fn stop_goes(
    rt: &impl Host,
    texts: &Texts,
    store: &MemDisk,
    calls: u64,
    pick: u64,
) -> Option<bool> {
    let left = run_stopped(rt, copy_of(rt, store)?, texts.script.as_bytes(), calls)?;
    let least = acknowledged(texts.script.as_bytes(), left.replies());
    let disk = left.disk.crash(pick);
    let shown = commits_shown(rt, texts, copy_of(rt, &disk)?)?;
    let is_next = least <= shown && shown - least <= 1;
    Some(is_next && openings_show(rt, texts, &disk, shown, pick)?)
}

// How many stops go as they should, of so many that part a whole run evenly, each with one of four crashes by turns; and else the number of calls of the
// first that goes otherwise.
fn stops(rt: &impl Host, texts: &Texts, count: u64) -> Result<u64, u64> {
    let Some(store) = new_store_of(rt, &SIZES) else {
        return Err(0);
    };
    let Some(all) = calls_of(rt, &store, texts.script.as_bytes()) else {
        return Err(0);
    };
    for n in 0..count {
        let calls = (all / count.max(1)).saturating_mul(n);
        let pick = [0, 0x5555_5555_5555_5555, 0x4444_4444_4444_4444, u64::MAX][n as usize % 4];
        if stop_goes(rt, texts, &store, calls, pick) != Some(true) {
            return Err(calls);
        }
    }
    Ok(count)
}

#[test]
fn stopped_wider_than_memory(rt: HostRuntime) -> Result<(), Fail> {
    let texts = Texts::new(&rt)?;
    assert_eq!(rt; stops(&rt, &texts, 24), Ok(24));
    Ok(())
}

// How many commits a whole run acknowledges, and how many are shown behind it.
fn whole(rt: &impl Host, texts: &Texts) -> Option<(usize, usize)> {
    let store = new_store_of(rt, &SIZES)?;
    let left = run(rt, store, texts.script.as_bytes())?;
    let least = acknowledged(texts.script.as_bytes(), left.replies());
    let shown = commits_shown(rt, texts, left.disk.crash(0))?;
    Some((least, shown))
}

#[test]
fn whole_wider_than_memory(rt: HostRuntime) -> Result<(), Fail> {
    let texts = Texts::new(&rt)?;
    assert_eq!(rt; whole(&rt, &texts), Some((4, 4)));
    Ok(())
}
