use crate::trial::{Host, answers};
use std::alloc::AllocError;
use std::test::Fail;

// Lines, and what a session over an empty disk answers them.
const ROWS: [(&str, &str); 18] = [
    // one transaction behind another
    (
        "t begin\nt make array a 3\nt push a abc\nt set a 0 xyz\nt commit\nu begin\nu get a 0\nu get a 1",
        "ok\nok\nok 0\nok\nok\nok\nok xyz\nerror out-of-range\n",
    ),
    // an abort beside the change of another item
    (
        "p begin\np make array a 2\np push a aa\np push a bb\np commit\n\
         t begin\nu begin\nt set a 0 cc\nu set a 1 dd\nt abort\nu get a 0\nu commit\nv begin\nv get a 0\nv get a 1",
        "ok\nok\nok 0\nok 1\nok\nok\nok\nok\nok\nok\nok aa\nok\nok\nok aa\nok dd\n",
    ),
    // a read of what another has changed
    (
        "p begin\np make array a 2\np push a aa\np push a bb\np commit\n\
         t begin\nu begin\nt set a 0 zz\nu get a 0\nt abort\nu get a 0",
        "ok\nok\nok 0\nok 1\nok\nok\nok\nok\nbusy t\nok\nok aa\n",
    ),
    // what a refused read touched is held
    (
        "p begin\np make array a 2\np push a aa\np push a bb\np commit\nt begin\nu begin\nt get a 2\nu push a xx",
        "ok\nok\nok 0\nok 1\nok\nok\nok\nerror out-of-range\nbusy t\n",
    ),
    // a sum that wraps, and its undo
    (
        "t begin\nt make array n 8\nt push n x:ffffffffffffffff\nt commit\nu begin\nu apply n 0 1 x:0100000000000000\n\
         u get n 0\nu abort\nv begin\nv get n 0\nv apply n 0 2 x:01\nv apply n 0 9 x:01",
        "ok\nok\nok 0\nok\nok\nok\nok x:0000000000000000\nok\nok\nok x:ffffffffffffffff\nerror declined\nerror no-operation\n",
    ),
    (
        "t begin\nt make array r 3\nt push r abc\nt apply r 0 3 x:01\nt get r 0",
        "ok\nok\nok 0\nok\nok bca\n",
    ),
    (
        "t begin\nt make blob b\nt size b 32769\nt commit\nu begin\nu write b 32767 AB\nu read b 32766 3\nu abort\n\
         v begin\nv read b 32766 3",
        "ok\nok\nok\nok\nok\nok\nok x:004142\nok\nok\nok x:000000\n",
    ),
    (
        "p begin\np make blob b\np size b 5\np write b 0 hello\np commit\nt begin\nt size b 2\nt size b 5\nt read b 0 5\n\
         t abort\nu begin\nu read b 0 5\nu size b 4\nu paint b 0 4 2 x:0a\nu paint b 1 2 1 Z\nu read b 0 4",
        "ok\nok\nok\nok\nok\nok\nok\nok\nok x:6865000000\nok\nok\nok hello\nok\nok\nok\nok x:0a5a5a0d\n",
    ),
    (
        "p begin\np make array a 1\np push a x:00\np make blob b\np size b 5\np write b 0 hello\np make table t\n\
         p put t a x:\np put t b x:c3a9\np put t c x:783a79\np commit\ns begin\ns keys t\ns list",
        "ok\nok\nok 0\nok\nok\nok\nok\nok new\nok new\nok new\nok\nok\nok 3 a b c\nok 3 a b t\n",
    ),
    // refusals in their order
    (
        "t frob\nt push a x:0\nT begin\n\n# note\nt begin\nt begin\nu get a 0",
        "error syntax\nerror syntax\nerror syntax\nok\nerror live\nerror no-transaction\n",
    ),
    // of two that are in the way the one that began first is named, and one that has ended is in nobody's way
    (
        "p begin\np make array a 2\np push a aa\np commit\nt begin\nu begin\nv begin\nu get a 0\nt get a 0\nv set a 0 zz\n\
         t abort\nv set a 0 zz\nu commit\nv set a 0 zz\nv commit\nw begin\nw get a 0",
        "ok\nok\nok 0\nok\nok\nok\nok\nok aa\nok aa\nbusy t\nok\nbusy u\nok\nok\nok\nok\nok zz\n",
    ),
    // an abort leaves out its own keys and objects, and no one else's
    (
        "p begin\np make table h\np put h a 1\np commit\nt begin\nu begin\nt put h b 2\nu put h c 3\nt put h a 9\n\
         t make array z 1\nu keys h\nt abort\nu keys h\nu list\nu find h a\nu commit\nv begin\nv keys h\nv list",
        "ok\nok\nok new\nok\nok\nok\nok new\nok new\nok replaced\nok\nbusy t\nok\nok 2 a c\nok 1 h\nok 1\nok\nok\nok 2 a c\nok 1 h\n",
    ),
    // what is dropped is there again, also where another had read its name
    (
        "p begin\np make array a 2\np push a aa\np commit\nt begin\nu begin\nt drop a\nu get a 0\nt abort\nu get a 0\n\
         u drop a\nu make array a 1\nu push a x\nu abort\nv begin\nv get a 0",
        "ok\nok\nok 0\nok\nok\nok\nok\nbusy t\nok\nok aa\nok\nok\nok 0\nok\nok\nok aa\n",
    ),
    // what was done behind a mark is taken back, and a mark that isn't kept is refused
    (
        "t begin\nt make array a 1\nt push a 1\nt save\nt push a 2\nt back 1\nt len a\nt back 2",
        "ok\nok\nok 0\nok 1\nok 1\nok\nok 1\nerror no-mark\n",
    ),
    // refusals of marks in their order: no number but one of a mark that is kept names one, and one stays that was gone back to
    (
        "t save\nt back 1\nt begin\nt back 1\nt back 0\nt back 17\nt back 18446744073709551615\n\
         t back 18446744073709551616\nt back\nt save 1\nt back 1 2\nt back x\nflush save\nt save\nt back 1\nt back 01\n\
         t commit\nt save",
        "error no-transaction\nerror no-transaction\nok\nerror no-mark\nerror no-mark\nerror no-mark\nerror no-mark\n\
         error syntax\nerror syntax\nerror syntax\nerror syntax\nerror syntax\nerror syntax\nok 1\nok\nok\n\
         ok\nerror no-transaction\n",
    ),
    // going back forgets the marks above, and keeps what is held
    (
        "p begin\np make array a 1\np push a x\np commit\nt begin\nu begin\nt save\nt set a 0 y\nt save\nt set a 0 z\n\
         t back 2\nt get a 0\nt save\nt back 1\nt get a 0\nt back 2\nu get a 0\nt save\nt commit\nu get a 0",
        "ok\nok\nok 0\nok\nok\nok\nok 1\nok\nok 2\nok\nok\nok y\nok 3\nok\nok x\nerror no-mark\nbusy t\nok 2\nok\nok x\n",
    ),
    // what was dropped behind a mark is there again, what was made behind it is gone, and an abort takes back the rest
    (
        "t begin\nt make array a 1\nt push a q\nt save\nt drop a\nt make table a\nt put a k v\nt back 1\nt get a 0\n\
         t make blob b\nt list\nt abort\nu begin\nu list",
        "ok\nok\nok 0\nok 1\nok\nok\nok new\nok\nok q\nok\nok 2 a b\nok\nok\nok 0\n",
    ),
    // the marks of one transaction are none of another's
    (
        "p begin\np make array a 1\np push a x\np push a y\np commit\nt begin\nu begin\nt save\nu back 1\nu save\nu save\n\
         t set a 0 b\nu set a 1 c\nt back 2\nt back 1\nu commit\nt commit\nv begin\nv get a 0\nv get a 1",
        "ok\nok\nok 0\nok 1\nok\nok\nok\nok 1\nerror no-mark\nok 1\nok 2\nok\nok\nerror no-mark\nok\nok\nok\nok\nok x\nok c\n",
    ),
];

// The number of the first row whose lines are answered otherwise.
fn first_wrong(rt: &impl Host) -> Option<usize> {
    for (number, (lines, replies)) in ROWS.iter().enumerate() {
        if !answers(rt, lines, replies) {
            return Some(number);
        }
    }
    None
}

#[test]
fn lines_of_transactions_among_one_another(rt: HostRuntime) {
    assert_eq!(rt; first_wrong(&rt), None);
}

// A value as long as the longest.
fn long_value(rt: &impl Host) -> Result<String, AllocError> {
    let mut value = String::new(rt.alloc());
    for _ in 0..1024u32 {
        value.push('v')?;
    }
    Ok(value)
}

// Whether a table's second long entry is taken back.
fn long_entry_goes(rt: &impl Host) -> Result<bool, AllocError> {
    let value = long_value(rt)?;
    let lines = format!(in rt.alloc();
        "t begin\nt make table h\nt put h k1 {value}\nt commit\nu begin\nu put h k2 {value}\nu abort\nw begin\nw find h k2\nw find h k1"
    )?;
    let replies = format!(in rt.alloc();
        "ok\nok\nok new\nok\nok\nok new\nok\nok\nnone\nok {value}\n"
    )?;
    Ok(answers(rt, &lines, &replies))
}

#[test]
fn a_long_entry_is_taken_back(rt: HostRuntime) -> Result<(), Fail> {
    assert!(rt; long_entry_goes(&rt)?);
    Ok(())
}

// Pushes the lines of 64 transactions that begin and make an object each.
fn push_begins(rt: &impl Host, lines: &mut String) -> Result<(), AllocError> {
    for n in 10..74u32 {
        lines.push_str(&format!(in rt.alloc(); "t{n} begin\nt{n} make array a{n} 1\n")?)?;
    }
    Ok(())
}

// Pushes the lines of an abort of each second one and of a commit of the others.
fn push_ends(rt: &impl Host, lines: &mut String) -> Result<(), AllocError> {
    for n in 10..74u32 {
        let end = if n % 2 == 0 { "abort" } else { "commit" };
        lines.push_str(&format!(in rt.alloc(); "t{n} {end}\n")?)?;
    }
    Ok(())
}

// The lines of 64 transactions that begin, of one more that can't, of the ends of the 64, and of one that looks at what is
// left.
fn lines_of_all(rt: &impl Host) -> Result<String, AllocError> {
    let mut lines = String::new(rt.alloc());
    push_begins(rt, &mut lines)?;
    lines.push_str("u begin\n")?;
    push_ends(rt, &mut lines)?;
    lines.push_str("u begin\nu list")?;
    Ok(lines)
}

// Pushes a reply so many times.
fn push_times(replies: &mut String, count: u32, reply: &str) -> Result<(), AllocError> {
    for _ in 0..count {
        replies.push_str(reply)?;
    }
    Ok(())
}

// Pushes the names of the objects of those that committed, each behind a space.
fn push_names(rt: &impl Host, replies: &mut String) -> Result<(), AllocError> {
    for n in 10..74u32 {
        if n % 2 == 1 {
            replies.push_str(&format!(in rt.alloc(); " a{n}")?)?;
        }
    }
    Ok(())
}

// What they are answered.
fn replies_to_all(rt: &impl Host) -> Result<String, AllocError> {
    let mut replies = String::new(rt.alloc());
    push_times(&mut replies, 128, "ok\n")?;
    replies.push_str("error too-many-live\n")?;
    push_times(&mut replies, 64, "ok\n")?;
    replies.push_str("ok\nok 32")?;
    push_names(rt, &mut replies)?;
    replies.push_str("\n")?;
    Ok(replies)
}

#[test]
fn as_many_are_live_as_may_be(rt: HostRuntime) -> Result<(), Fail> {
    let lines = lines_of_all(&rt)?;
    let replies = replies_to_all(&rt)?;
    assert!(rt; answers(&rt, &lines, &replies));
    Ok(())
}

// A transaction that pushes an item more than it can hold.
fn lines_of_many_locks(rt: &impl Host) -> Result<String, AllocError> {
    let mut lines = String::new(rt.alloc());
    lines.push_str("t begin\nt make array a 1\n")?;
    push_times(&mut lines, 4093, "t push a x\n")?;
    lines.push_str("t push a x\nt len a")?;
    Ok(lines)
}

// What it is answered.
fn replies_to_many_locks(rt: &impl Host) -> Result<String, AllocError> {
    let mut replies = String::new(rt.alloc());
    replies.push_str("ok\nok\n")?;
    for n in 0..4093u32 {
        replies.push_str(&format!(in rt.alloc(); "ok {n}\n")?)?;
    }
    replies.push_str("error locks-full\nok 4093\n")?;
    Ok(replies)
}

// A transaction holds an array, its kind, its length and each item that it pushed.
#[test]
fn as_much_is_held_as_may_be(rt: HostRuntime) -> Result<(), Fail> {
    let lines = lines_of_many_locks(&rt)?;
    let replies = replies_to_many_locks(&rt)?;
    assert!(rt; answers(&rt, &lines, &replies));
    Ok(())
}

// A transaction that sets a mark more than it can have, and goes back to some of them.
fn lines_of_many_marks(rt: &impl Host) -> Result<String, AllocError> {
    let mut lines = String::new(rt.alloc());
    lines.push_str("t begin\n")?;
    push_times(&mut lines, 17, "t save\n")?;
    lines.push_str("t back 16\nt save\nt back 15\nt save\nt save\nt back 1\nt save")?;
    Ok(lines)
}

// What it is answered: the mark that it went back to is kept.
fn replies_to_many_marks(rt: &impl Host) -> Result<String, AllocError> {
    let mut replies = String::new(rt.alloc());
    replies.push_str("ok\n")?;
    for n in 1..17u32 {
        replies.push_str(&format!(in rt.alloc(); "ok {n}\n")?)?;
    }
    replies.push_str(
        "error marks-full\nok\nerror marks-full\nok\nok 16\nerror marks-full\nok\nok 2\n",
    )?;
    Ok(replies)
}

#[test]
fn as_many_marks_are_kept_as_may_be(rt: HostRuntime) -> Result<(), Fail> {
    let lines = lines_of_many_marks(&rt)?;
    let replies = replies_to_many_marks(&rt)?;
    assert!(rt; answers(&rt, &lines, &replies));
    Ok(())
}
