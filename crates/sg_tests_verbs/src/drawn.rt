use sg_base::{Name, TxnId};
use sg_model::{Op, Reason, Reply, Touches};
use sg_objects::{ObjFault, free_next, needs_of, perform, reverse, touches};
use sg_ops::Ops;
use sg_plain::{Changes, Objects};
use sg_space::{Guarded, MemSpace, PageSpace, UndoNote};
use std::alloc::Global;
use std::test::Fail;

// What a verb was done to, what takes it back of objects in memory, and the note that undoes it.
type Done = (Name, Changes, UndoNote);

// Objects in a space that tells nothing, the same in memory, and what a transaction has done to both.
#[derive(Drop)]
struct Pair {
    space: Guarded,
    plain: Objects,
    ops: Ops,
    alloc: Global,
    done: Vec<Done>,
    wrong: u32,
    changed: u32,
    undone: u32,
}

// One of four names.
fn name_of(bits: u32) -> Option<Name> {
    Name::new(&[b'a' + (bits % 4) as u8])
}

// Makes an object, or drops one, by drawn bits.
fn drawn_whole(bits: u32, name: Name) -> Op<'static> {
    match bits % 16 {
        0..=4 => Op::MakeArray { name, size: 8 },
        5..=9 => Op::MakeTable { name },
        10..=14 => Op::MakeBlob { name },
        _ => Op::Discard { name },
    }
}

// An array's verb, by drawn bits.
fn drawn_item<'a>(bits: u32, name: Name, bytes: &'a [u8; 8]) -> Op<'a> {
    let index = u64::from((bits >> 8) % 12);
    match bits % 16 {
        0..=6 => Op::Push { name, value: bytes },
        7 => Op::Pop { name },
        8..=10 => Op::Set {
            name,
            index,
            value: bytes,
        },
        11 => Op::Get { name, index },
        12 => Op::Len { name },
        13 => Op::Apply {
            name,
            index,
            code: 1,
            arg: bytes,
        },
        14 => Op::Apply {
            name,
            index,
            code: 2,
            arg: bytes,
        },
        _ => Op::Apply {
            name,
            index,
            code: 3,
            arg: &bytes[..1],
        },
    }
}

// A table's verb.
fn drawn_entry<'a>(bits: u32, name: Name, key: &'a [u8; 2], value: &'a [u8; 2_048]) -> Op<'a> {
    let count = ((bits >> 8) % 700) as usize;
    match bits % 8 {
        0..=3 => Op::Put {
            name,
            key,
            value: &value[..count],
        },
        4 | 5 => Op::Del { name, key },
        _ => Op::Find { name, key },
    }
}

// A blob's verb.
fn drawn_bytes<'a>(bits: u32, name: Name, bytes: &'a [u8; 2_048]) -> Op<'a> {
    let at = u64::from((bits >> 4) % 40_000);
    let count = u64::from((bits >> 16) % 2_048);
    match bits % 8 {
        0..=2 => Op::Write {
            name,
            at,
            bytes: &bytes[..count as usize],
        },
        3 | 4 => Op::Read { name, at, count },
        5 | 6 => Op::Size {
            name,
            length: at + count,
        },
        _ => Op::Paint {
            name,
            at,
            count,
            code: 2,
            arg: &bytes[..1],
        },
    }
}

// Whether two outcomes are the same, with the bytes that they answer.
fn is_same(
    said: &Result<Reply, ObjFault>,
    plain: &Result<Reply, Reason>,
    into: &[u8; 8192],
    other: &[u8; 8192],
) -> bool {
    match (said, plain) {
        (Ok(Reply::Bytes(n)), Ok(Reply::Bytes(m))) => {
            *n == *m && *n <= 8_192 && &into[..*n] == &other[..*n]
        }
        (Ok(reply), Ok(want)) => *reply == *want,
        (Err(ObjFault::Model(reason)), Err(want)) => *reason == *want,
        _ => false,
    }
}

impl Pair {
    fn new(alloc: Global) -> Result<Pair, Fail> {
        Ok(Pair {
            space: Guarded::new(MemSpace::new(alloc, 4_000, 40)?),
            plain: Objects::empty(alloc),
            ops: Ops::shipped(alloc)?,
            alloc,
            done: Vec::new(alloc),
            wrong: 0,
            changed: 0,
            undone: 0,
        })
    }

    fn count_wrong(&mut self, right: bool) {
        if !right {
            self.wrong = self.wrong.saturating_add(1);
        }
    }

    // What the verb needs is asked of the space where it isn't refused, and it touches the same of both.
    fn ask(&mut self, op: &Op<'_>) -> Result<(), Fail> {
        let refusal = self.plain.refusal(&self.ops, op);
        let asked = match needs_of(&mut self.space, &self.ops, op) {
            Ok(_) => refusal.is_none(),
            Err(ObjFault::Model(reason)) => refusal == Some(reason),
            Err(ObjFault::Space(_)) => false,
        };
        self.count_wrong(asked);
        let (mut these, mut those) = (Touches::new(), Touches::new());
        touches(&mut self.space, op, &mut these)?;
        self.plain.touches(op, &mut those);
        let same = these.list().len() == those.list().len()
            && these
                .list()
                .iter()
                .zip(those.list())
                .all(|(a, b)| a.write == b.write && a.what.is_same(&b.what));
        self.count_wrong(same);
        Ok(())
    }

    // Does a verb to both.
    fn does(&mut self, name: Name, op: &Op<'_>) -> Result<(), Fail> {
        self.ask(op)?;
        let (mut into, mut other) = ([0; 8192], [0; 8192]);
        let mut note = UndoNote::new();
        let mut changes = Changes::new(self.alloc);
        let result = perform(
            &mut self.space,
            &self.ops,
            TxnId(7),
            op,
            &mut into,
            &mut note,
        );
        let want = if op.is_changing() {
            self.plain
                .change(self.alloc, &self.ops, op, &mut other, &mut changes)?
        } else {
            self.plain.apply(self.alloc, &self.ops, op, &mut other)?
        };
        self.count_wrong(is_same(&result, &want, &into, &other));
        if note.size() > 0 {
            self.done.push((name, changes, note))?;
            self.changed = self.changed.saturating_add(1);
        }
        Ok(())
    }

    // The length of the blob of a name, in the space or in memory.
    fn lengths(&mut self, name: Name) -> Result<(u64, u64), Fail> {
        let mut into = [0; 8192];
        let op = Op::Len { name };
        let mut note = UndoNote::new();
        let now = perform(
            &mut self.space,
            &self.ops,
            TxnId(7),
            &op,
            &mut into,
            &mut note,
        );
        let was = self.plain.apply(self.alloc, &self.ops, &op, &mut into)?;
        match (now, was) {
            (Ok(Reply::Number(now)), Ok(Reply::Number(was))) => Ok((now, was)),
            _ => Ok((0, 0)),
        }
    }

    // Writes the bytes back that a blob has in memory, with zeros behind them, as the records of the verb's action have them.
    fn put_back(&mut self, name: Name) -> Result<(), Fail> {
        let (now, was) = self.lengths(name)?;
        let Some(entry) = sg_catalog::find(&mut self.space, name)? else {
            return Ok(());
        };
        for piece in 0..8u32 {
            let at = piece * 8_192;
            let end = now.max(was).saturating_sub(u64::from(at)).min(8_192);
            let count = was.saturating_sub(u64::from(at)).min(8_192);
            let mut bytes = [0; 8192];
            if count > 0 {
                let op = Op::Read {
                    name,
                    at: u64::from(at),
                    count,
                };
                let _ = self.plain.apply(self.alloc, &self.ops, &op, &mut bytes)?;
            }
            if end > 0 {
                sg_blob::write(
                    &mut self.space,
                    &self.ops,
                    entry.root,
                    at,
                    &bytes[..end as usize],
                )?;
            }
        }
        Ok(())
    }

    // Undoes the last verb of the transaction in both; `false` where there is none.
    fn undo_last(&mut self) -> Result<bool, Fail> {
        let Some((name, mut changes, note)) = self.done.pop() else {
            return Ok(false);
        };
        self.plain.take_back(self.alloc, &mut changes)?;
        if note.bytes().first() == Some(&9) {
            self.put_back(name)?;
        }
        reverse(&mut self.space, &self.ops, &note)?;
        self.undone = self.undone.saturating_add(1);
        Ok(true)
    }

    fn undo_all(&mut self) -> Result<(), Fail> {
        for _ in 0..64 {
            if !self.undo_last()? {
                return Ok(());
            }
        }
        Ok(())
    }

    // Keeps what the transaction did, and frees what it dropped.
    fn keep_all(&mut self) -> Result<(), Fail> {
        self.done.clear();
        for _ in 0..64 {
            if !free_next(&mut self.space, &self.ops, Some(TxnId(7)))? {
                return Ok(());
            }
        }
        Ok(())
    }

    // Drops all that is left, and frees it.
    fn drop_all(&mut self) -> Result<(), Fail> {
        for i in 0..4 {
            if let Some(name) = name_of(i) {
                self.does(name, &Op::Discard { name })?;
            }
        }
        self.keep_all()
    }

    // Does what some drawn bits say: a verb, mostly, or the end of a transaction. Three of four verbs go to a name that those of
    // the same kind go to.
    fn step(&mut self, bits: u32, more: u32) -> Result<(), Fail> {
        let kind = (bits >> 2) % 3;
        let one = if (bits >> 4) % 4 == 0 {
            bits >> 6
        } else {
            kind
        };
        let Some(name) = name_of(one) else {
            return Ok(());
        };
        let letter = (more >> 24) as u8;
        let key = [b'k', ((bits >> 8) % 24) as u8];
        match (bits >> 14) % 32 {
            0 => self.keep_all(),
            1 => self.undo_all(),
            2 | 3 => self.does(name, &drawn_whole(more >> 4, name)),
            _ => match kind {
                0 => self.does(name, &drawn_item(more >> 4, name, &[letter; 8])),
                1 => self.does(name, &drawn_entry(more >> 4, name, &key, &[letter; 2_048])),
                _ => self.does(name, &drawn_bytes(more >> 4, name, &[letter; 2_048])),
            },
        }
    }
}

fn next(seed: u32) -> u32 {
    seed.wrapping_mul(1_664_525).wrapping_add(1_013_904_223)
}

// So many steps.
fn run(pair: &mut Pair, count: u32) -> Result<(), Fail> {
    let mut seed = 54u32;
    for _ in 0..count {
        let bits = next(seed);
        seed = next(bits);
        if pair.done.len() >= 32 {
            pair.undo_all()?;
        }
        pair.step(bits >> 8, seed)?;
    }
    Ok(())
}

// What the steps came to: how many were answered otherwise, faults of the space, how many verbs changed something and were undone, and whether
// as many pages and bands are free as at first.
#[derive(Clone, Copy)]
struct Sums {
    wrong: u32,
    faults: u64,
    changed: u32,
    undone: u32,
    is_free_again: bool,
}

fn came_to(alloc: Global) -> Result<Sums, Fail> {
    let mut pair = Pair::new(alloc)?;
    let (pages, bands) = (pair.space.free_pages(), pair.space.free_bands());
    run(&mut pair, 12_000)?;
    pair.drop_all()?;
    Ok(Sums {
        wrong: pair.wrong,
        faults: pair.space.faults(),
        changed: pair.changed,
        undone: pair.undone,
        is_free_again: pair.space.free_pages() == pages && pair.space.free_bands() == bands,
    })
}

// 12,000 steps, of which 15 in 16 are verbs: each answers as objects in memory do, is refused where they refuse it, and touches what it
// touches of them. Once all is dropped and freed as many pages and bands are free as at first.
#[test]
fn drawn_verbs_are_those_of_objects_in_memory(rt: HostRuntime) -> Result<(), Fail> {
    let came = came_to(rt.alloc())?;
    assert_eq!(rt; (came.wrong, came.faults), (0, 0));
    assert!(rt; came.changed >= 2_000);
    assert!(rt; came.undone >= 1_000);
    assert!(rt; came.is_free_again);
    Ok(())
}
