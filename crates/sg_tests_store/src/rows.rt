// What scripts with several transactions at a time are answered, and each refusal once.
use crate::small::Measures;
use crate::trial::{begins, is_answered, pushes};
use sg_model::Reply;
use sg_store::{Needed, Refused};
use std::alloc::Global;
use std::test::Fail;

// No begin and no change comes above this byte of the log.
const NEW_WORK_END: u64 = 4_611_686_018_427_387_904;

// Room for all that the scripts do: how many pages and bands are free, and how many an operation needs.
const AMPLE: [u32; 4] = [64, 3, 1, 0];

// So many records can be appended at least.
const MANY: u64 = 1_000_000;

// The number of the log's next byte, what is free and needed, how many records can be appended, a script, and its replies.
const ROWS: [(u64, [u32; 4], u64, &str, &str); 14] = [
    (
        1,
        AMPLE,
        MANY,
        "t begin\nt make array a 3\nt push a abc\nt commit",
        "ok\nok\nok 0\nok\n",
    ),
    // an abort takes back what its transaction did, and leaves what the other did
    (
        1,
        AMPLE,
        MANY,
        "s begin\ns make array a 2\ns push a aa\ns push a bb\ns commit\nt begin\nu begin\nt set a 0 cc\nu set a 1 dd\nt abort\nu get a 0\nu commit\nv begin\nv get a 1",
        "ok\nok\nok 0\nok 1\nok\nok\nok\nok\nok\nok\nok aa\nok\nok\nok dd\n",
    ),
    // what another holds is busy until it ends
    (
        1,
        AMPLE,
        MANY,
        "s begin\ns make array a 2\ns push a aa\ns push a bb\ns commit\nt begin\nu begin\nt set a 0 zz\nu get a 0\nt abort\nu get a 0",
        "ok\nok\nok 0\nok 1\nok\nok\nok\nok\nbusy t\nok\nok aa\n",
    ),
    // also where the line that holds it was refused
    (
        1,
        AMPLE,
        MANY,
        "s begin\ns make array a 2\ns push a aa\ns push a bb\ns commit\nt begin\nu begin\nt get a 2\nu push a xx",
        "ok\nok\nok 0\nok 1\nok\nok\nok\nerror out-of-range\nbusy t\n",
    ),
    // registered operations
    (
        1,
        AMPLE,
        MANY,
        "t begin\nt make array n 8\nt push n x:ffffffffffffffff\nt commit\nu begin\nu apply n 0 1 x:0100000000000000\nu get n 0\nu abort\nv begin\nv get n 0\nv apply n 0 2 x:01\nv apply n 0 9 x:01",
        "ok\nok\nok 0\nok\nok\nok\nok x:0000000000000000\nok\nok\nok x:ffffffffffffffff\nerror declined\nerror no-operation\n",
    ),
    // a key that was put and taken back
    (
        1,
        AMPLE,
        MANY,
        "t begin\nt make table h\nt put h k1 V\nt commit\nu begin\nu put h k2 W\nu abort\nw begin\nw find h k2\nw find h k1",
        "ok\nok\nok new\nok\nok\nok new\nok\nok\nnone\nok V\n",
    ),
    // a blob whose bytes were taken back
    (
        1,
        AMPLE,
        MANY,
        "t begin\nt make blob b\nt size b 32769\nt commit\nu begin\nu write b 32767 AB\nu read b 32766 3\nu abort\nv begin\nv read b 32766 3",
        "ok\nok\nok\nok\nok\nok\nok x:004142\nok\nok\nok x:000000\n",
    ),
    // keys and names, in order; who lists holds what the list tells
    (
        1,
        AMPLE,
        MANY,
        "r begin\nr make array a 1\nr push a x:00\nr make blob b\nr write b 0 hello\nr make table t\nr put t a x:\nr put t c x:783a79\nr put t b x:c3a9\nr commit\ns begin\ns keys t\ns list\ns keys a\ns keys n\nu begin\nu put t d 1\nu make blob c\nu keys t\ns commit\nu put t d 1",
        "ok\nok\nok 0\nok\nok\nok\nok new\nok new\nok new\nok\nok\nok 3 a b c\nok 3 a b t\nerror wrong-kind\nerror no-object\nok\nbusy s\nbusy s\nok 3 a b c\nok\nok new\n",
    ),
    // the first of several causes is answered
    (
        1,
        AMPLE,
        MANY,
        "t begin\nt make array a 1\nt push a 1\nu get a 0\nu commit\nu abort\nu keys a\nu list\nu begin\nu pop a\nu get b 0",
        "ok\nok\nok 0\nerror no-transaction\nerror no-transaction\nerror no-transaction\nerror no-transaction\nerror no-transaction\nok\nbusy t\nerror no-object\n",
    ),
    // fewer pages are free than are needed, or fewer bands; a line that only reads needs none
    (
        1,
        [1, 3, 2, 0],
        MANY,
        "t begin\nt make array a 1\nt make array a 0\nt list\nt commit",
        "ok\nerror no-space 1 0 2\nerror out-of-range\nok 0\nok\n",
    ),
    (
        1,
        [1, 1, 1, 2],
        MANY,
        "t begin\nt make blob b\nt abort",
        "ok\nerror no-bands 1 2\nok\n",
    ),
    // no begin above 2^62, and nothing that changes; reading, a commit and an abort go on
    (NEW_WORK_END + 1, AMPLE, MANY, "t begin", "error log-end\n"),
    (
        NEW_WORK_END,
        AMPLE,
        MANY,
        "t begin\nt make array a 1\nt list\nt commit\nu begin",
        "ok\nerror log-end\nok 0\nok\nerror log-end\n",
    ),
    // a fault stops the store
    (
        1,
        AMPLE,
        4,
        "t begin\nt commit\nu begin\nu commit\nu commit\nv begin\nu list\nu keys a\nu abort\nu get a 0",
        "ok\nok\nok\nerror disk\nerror stopped\nerror stopped\nerror stopped\nerror stopped\nerror stopped\nerror stopped\n",
    ),
];

fn measures_of(tail: u64, room: [u32; 4], records: u64) -> Measures {
    let [pages, bands, need, band] = room;
    Measures {
        tail,
        pages,
        bands,
        needs: Needed {
            pages: need,
            bands: band,
            reserve: 0,
        },
        records,
    }
}

// The first row that is answered otherwise.
fn first_wrong(alloc: Global) -> Option<usize> {
    for (i, (tail, room, records, script, replies)) in ROWS.iter().enumerate() {
        if !is_answered(alloc, measures_of(*tail, *room, *records), script, replies) {
            return Some(i);
        }
    }
    None
}

#[test]
fn rows(rt: HostRuntime) {
    assert_eq!(rt; first_wrong(rt.alloc()), None);
}

#[test]
fn most_live(rt: HostRuntime) {
    let counted = begins(rt.alloc(), measures_of(1, AMPLE, MANY));
    assert_eq!(rt; counted, Some((64, Refused::TooManyLive)));
}

// A transaction holds the array, its kind, its length and each of its items; more items than there is room for aren't held, and
// what is held already is asked for again.
#[test]
fn most_held(rt: HostRuntime) {
    let counted = pushes(rt.alloc(), measures_of(1, AMPLE, MANY));
    assert_eq!(rt;
        counted,
        Some((4_093, Refused::LocksFull, Reply::Number(4_093)))
    );
}
