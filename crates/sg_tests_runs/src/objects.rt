// Two scripts, and the objects after each commit of theirs: one of transactions among one another over arrays, tables and blobs, and one that makes all
// durable, sets a checkpoint and cuts the log.
use crate::trial::{Host, Left, run, run_in_pieces};
use sg_disk::MemDisk;
use sg_making::Geometry;

/// As small a store as may be made.
pub const SIZES: Geometry = Geometry {
    pages: 64,
    bands: 4,
    frames: 32,
    windows: 4,
};

// p makes an object of each kind. Then t, u and v go on at once: u commits, v aborts, and t commits, which began before u. q drops an object and
// makes another. w is left, and changes what is there; behind its changes r commits, so that they are durable.
const SCRIPT: &[u8] =
    b"p begin\np make array a 2\np push a aa\np push a bb\np make table h\np put h k v\n\
    p make blob b\np write b 0 hello\np commit\n\
    t begin\nu begin\nv begin\nt set a 0 cc\nu apply a 1 1 x:0100\nv put h w x\nt put h k new\nu write b 3 XYZ\n\
    v make array z 1\nu commit\nflush\nv abort\nt size b 2\nt commit\n\
    q begin\nq drop a\nq make blob c\nq size c 40000\nq del h k\nq commit\n\
    w begin\nr begin\nw write b 1 LOSER\nw put h w x\nw drop c\nw make array d 1\nr put h r 1\nr commit\nw push d w";

// What looks at all objects.
const LOOK: &[u8] =
    b"s begin\ns list\ns len a\ns get a 0\ns get a 1\ns keys h\ns find h k\ns find h w\ns find h r\n\
    s len b\ns read b 0 2\ns read b 0 5\ns read b 0 6\ns len c\ns read c 39996 4";

// What that is answered where the objects are those after the first so many commits.
const AFTER: [&[u8]; 6] = [
    b"ok\nok 0\nerror no-object\nerror no-object\nerror no-object\n\
      error no-object\nerror no-object\nerror no-object\nerror no-object\n\
      error no-object\nerror no-object\nerror no-object\nerror no-object\nerror no-object\nerror no-object\n",
    b"ok\nok 3 a b h\nok 2\nok aa\nok bb\nok 1 k\nok v\nnone\nnone\n\
      ok 5\nok he\nok hello\nerror out-of-range\nerror no-object\nerror no-object\n",
    b"ok\nok 3 a b h\nok 2\nok aa\nok cb\nok 1 k\nok v\nnone\nnone\n\
      ok 6\nok he\nok helXY\nok helXYZ\nerror no-object\nerror no-object\n",
    b"ok\nok 3 a b h\nok 2\nok cc\nok cb\nok 1 k\nok new\nnone\nnone\n\
      ok 2\nok he\nerror out-of-range\nerror out-of-range\nerror no-object\nerror no-object\n",
    b"ok\nok 3 b c h\nerror no-object\nerror no-object\nerror no-object\nok 0\nnone\nnone\nnone\n\
      ok 2\nok he\nerror out-of-range\nerror out-of-range\nok 40000\nok x:00000000\n",
    b"ok\nok 3 b c h\nerror no-object\nerror no-object\nerror no-object\nok 1 r\nnone\nnone\nok 1\n\
      ok 2\nok he\nerror out-of-range\nerror out-of-range\nok 40000\nok x:00000000\n",
];

// t makes an array and a blob. u, behind a flush, changes bytes on both sides of the end of a piece of the blob and adds 1 to the item. v is left.
const CUT: &[u8] =
    b"t begin\nt make array a 1\nt push a 1\nt make blob b\nt size b 600\nt commit\nflush\n\
    u begin\nu write b 510 ABCD\nu apply a 0 1 x:01\nu commit\ncheckpoint\ntruncate\nv begin\nv push a 2";

// What is written of its objects after the first so many commits.
const WRITTEN: [&[u8]; 3] = [
    b"objects 0\n",
    b"array a 1 1\n 0 1\nblob b 600\nobjects 2\n",
    b"array a 1 1\n 0 2\nblob b 600\n\
      \x20480 x:0000000000000000000000000000000000000000000000000000000000004142\n\
      \x20512 x:4344000000000000000000000000000000000000000000000000000000000000\nobjects 2\n",
];

/// A script over a new store of the least sizes, and how its objects are looked at.
#[derive(Clone, Copy)]
pub enum Course {
    /// That of transactions among one another, by lines that read.
    Objects,
    /// That which cuts the log, by the text of all objects.
    Cut,
}

impl Course {
    /// Its lines.
    pub fn script(self) -> &'static [u8] {
        match self {
            Course::Objects => SCRIPT,
            Course::Cut => CUT,
        }
    }

    // What a look at a store over this disk writes.
    fn look(self, rt: &impl Host, disk: MemDisk) -> Option<Left> {
        match self {
            Course::Objects => run(rt, disk, LOOK),
            Course::Cut => run_in_pieces(rt, "dump store", disk, b"", 8),
        }
    }

    /// The number of commits whose objects a store over this disk shows, where it opens and shows those of some.
    pub fn commits_shown(self, rt: &impl Host, disk: MemDisk) -> Option<usize> {
        let left = self.look(rt, disk)?;
        match self {
            Course::Objects => AFTER.iter().position(|replies| *replies == left.replies()),
            Course::Cut => WRITTEN.iter().position(|text| *text == left.replies()),
        }
    }
}
