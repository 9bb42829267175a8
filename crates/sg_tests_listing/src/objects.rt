use sg_base::{MemSink, Name, TxnId};
use sg_lines::{Adder, Summary};
use sg_listing::{TellFault, tell, write_text};
use sg_model::Op;
use sg_objects::perform;
use sg_ops::Ops;
use sg_space::{Guarded, MemSpace, UndoNote};
use std::alloc::Global;
use std::test::Fail;

// Objects that some operations leave in a space that tells nothing, so that a call asks for nothing, and whether each of these was done.
#[derive(Drop)]
struct Made {
    alloc: Global,
    ops: Ops,
    space: Guarded,
    all_done: bool,
}

impl Made {
    // 64 pages, of which the catalogue has one, and 8 bands, of which the map has two.
    fn new(alloc: Global) -> Result<Made, Fail> {
        let space = Guarded::new(MemSpace::new(alloc, 64, 8)?);
        let ops = Ops::shipped(alloc)?;
        Ok(Made {
            alloc,
            ops,
            space,
            all_done: true,
        })
    }

    fn does(&mut self, op: &Op<'_>) {
        let mut into = [0u8; 8192];
        let mut note = UndoNote::new();
        let came = perform(
            &mut self.space,
            &self.ops,
            TxnId(7),
            op,
            &mut into,
            &mut note,
        );
        self.all_done &= came.is_ok();
    }

    // Whether this is the text of the objects.
    fn writes(&mut self, text: &[u8]) -> bool {
        let mut sink = MemSink::new(self.alloc, None);
        write_text(&mut self.space, self.alloc, &mut sink).is_ok() && sink.text() == text
    }

    // Whether this is what they come to.
    fn adds_up(&mut self, summary: Summary) -> bool {
        let mut adder = Adder::new();
        tell(&mut self.space, self.alloc, &mut adder).is_ok() && adder.summary == summary
    }

    // Whether all was done, and the text and the summary are these.
    fn reads(&mut self, text: &[u8], summary: Summary) -> bool {
        self.all_done && self.writes(text) && self.adds_up(summary)
    }

    // Whether a sink whose nth call fails has this text then, and the listing says so.
    fn is_cut(&mut self, nth: u64, text: &[u8]) -> bool {
        let mut sink = MemSink::new(self.alloc, Some(nth));
        write_text(&mut self.space, self.alloc, &mut sink) == Err(TellFault::Listener)
            && sink.text() == text
    }
}

fn name_of(text: &[u8]) -> Result<Name, Fail> {
    Ok(Name::new(text).ok_or("a name")?)
}

#[test]
fn no_objects_are_counted(rt: HostRuntime) -> Result<(), Fail> {
    let mut made = Made::new(rt.alloc())?;
    let none = Summary {
        objects: 0,
        items: 0,
        entries: 0,
        bytes: 0,
        sum: 0,
    };
    assert!(rt; made.reads(b"objects 0\n", none));
    Ok(())
}

#[test]
fn an_array_is_written(rt: HostRuntime) -> Result<(), Fail> {
    let mut made = Made::new(rt.alloc())?;
    let name = name_of(b"a")?;
    made.does(&Op::MakeArray { name, size: 3 });
    made.does(&Op::Push {
        name,
        value: b"abc",
    });
    let summary = Summary {
        objects: 1,
        items: 1,
        entries: 0,
        bytes: 0,
        sum: 294,
    };
    assert!(rt; made.reads(b"array a 3 1\n 0 abc\nobjects 1\n", summary));
    Ok(())
}

// An array, a blob and a table, of which the last that was touched isn't the last by its name.
fn three(alloc: Global) -> Result<Made, Fail> {
    let mut made = Made::new(alloc)?;
    let (a, b, t) = (name_of(b"a")?, name_of(b"b")?, name_of(b"t")?);
    made.does(&Op::MakeTable { name: t });
    made.does(&Op::MakeArray { name: a, size: 1 });
    made.does(&Op::MakeBlob { name: b });
    made.does(&Op::Push {
        name: a,
        value: b"\0",
    });
    made.does(&Op::Put {
        name: t,
        key: b"c",
        value: b"x:y",
    });
    made.does(&Op::Put {
        name: t,
        key: b"a",
        value: b"",
    });
    made.does(&Op::Put {
        name: t,
        key: b"d",
        value: b"gone",
    });
    made.does(&Op::Put {
        name: t,
        key: b"b",
        value: b"\xc3\xa9",
    });
    made.does(&Op::Del { name: t, key: b"d" });
    made.does(&Op::Write {
        name: b,
        at: 0,
        bytes: b"hello",
    });
    Ok(made)
}

const OF_THREE: &[u8] =
    b"array a 1 1\n 0 x:00\nblob b 5\n 0 x:68656c6c6f\ntable t 3\n a x:\n b x:c3a9\n c x:783a79\nobjects 3\n";

#[test]
fn three_objects_are_written_by_name(rt: HostRuntime) -> Result<(), Fail> {
    let mut made = three(rt.alloc())?;
    let summary = Summary {
        objects: 3,
        items: 1,
        entries: 3,
        bytes: 5,
        sum: 1489,
    };
    assert!(rt; made.reads(OF_THREE, summary));
    Ok(())
}

// The text is handed over in nine calls, of a line each.
#[test]
fn a_sink_that_fails_cuts_the_text(rt: HostRuntime) -> Result<(), Fail> {
    let mut made = three(rt.alloc())?;
    assert!(rt; made.is_cut(1, b""));
    assert!(rt; made.is_cut(2, b"array a 1 1\n"));
    assert!(rt; made.is_cut(4, b"array a 1 1\n 0 x:00\nblob b 5\n"));
    assert!(rt;
        made.is_cut(
            7,
            b"array a 1 1\n 0 x:00\nblob b 5\n 0 x:68656c6c6f\ntable t 3\n a x:\n"
        )
    );
    assert!(rt;
        made.is_cut(
            9,
            b"array a 1 1\n 0 x:00\nblob b 5\n 0 x:68656c6c6f\ntable t 3\n a x:\n b x:c3a9\n c x:783a79\n"
        )
    );
    Ok(())
}

// Of 100 bytes those from 40 to 41 and from 98 on aren't 0: the second and the last piece are written, and the last has four bytes.
#[test]
fn pieces_of_zeros_are_left_out(rt: HostRuntime) -> Result<(), Fail> {
    let mut made = Made::new(rt.alloc())?;
    let name = name_of(b"b")?;
    made.does(&Op::MakeBlob { name });
    made.does(&Op::Size { name, length: 100 });
    made.does(&Op::Write {
        name,
        at: 40,
        bytes: b"AB",
    });
    made.does(&Op::Write {
        name,
        at: 98,
        bytes: b"\x01\x02",
    });
    let summary = Summary {
        objects: 1,
        items: 0,
        entries: 0,
        bytes: 100,
        sum: 134,
    };
    let text =
        b"blob b 100\n 32 x:0000000000000000414200000000000000000000000000000000000000000000\n 96 x:00000102\nobjects 1\n";
    assert!(rt; made.reads(text, summary));
    Ok(())
}
