// What a store of the least sizes has room for: its pages and bands, and those of them that are kept for undoing.
use crate::objects::SIZES;
use crate::trial::{Host, new_store_of, run_goes};
use sg_top::Status;
use std::alloc::AllocError;
use std::test::Fail;

// Scripts over a new store, and what they are answered. One band is the store's own, so that objects may have three.
const ROWS: [(&str, &str); 3] = [
    // a blob of one byte more than two bands have wants a fourth
    (
        "t begin\nt make blob b\nt size b 32769\nt commit\nu begin\nu write b 32767 AB\nu read b 32766 3\nu abort\n\
         v begin\nv read b 32766 3\nv size b 98305",
        "ok\nok\nok\nok\nok\nok\nok x:004142\nok\nok\nok x:000000\nerror no-bands 1 2\n",
    ),
    // bands that were dropped are free behind the commit
    (
        "p begin\np make blob b\np size b 98304\np commit\nt begin\nt drop b\nt commit\nu begin\nu make blob c\nu size c 98304",
        "ok\nok\nok\nok\nok\nok\nok\nok\nok\nok\n",
    ),
    // and not before it
    (
        "p begin\np make blob b\np size b 98304\np commit\nt begin\nt drop b\nu begin\nu make blob c\nu size c 98304",
        "ok\nok\nok\nok\nok\nok\nok\nok\nerror no-bands 0 3\n",
    ),
];

// Whether a script over a new store is answered so.
fn goes(rt: &impl Host, script: &str, replies: &str) -> bool {
    match new_store_of(rt, &SIZES) {
        Some(disk) => run_goes(
            rt,
            disk,
            script.as_bytes(),
            Status::Done,
            replies.as_bytes(),
        ),
        None => false,
    }
}

// The number of the first row that goes otherwise.
fn first_wrong(rt: &impl Host) -> Option<usize> {
    for (number, (script, replies)) in ROWS.iter().enumerate() {
        if !goes(rt, script, replies) {
            return Some(number);
        }
    }
    None
}

#[test]
fn as_many_bands_as_there_are(rt: HostRuntime) {
    assert_eq!(rt; first_wrong(&rt), None);
}

// The lines with which a transaction pushes so many items of 256 letters.
fn push_items(
    rt: &impl Host,
    lines: &mut String,
    transaction: char,
    count: u32,
) -> Result<(), AllocError> {
    let mut item = String::new(rt.alloc());
    for _ in 0..256u32 {
        item.push('i')?;
    }
    for _ in 0..count {
        lines.push_str(&format!(in rt.alloc(); "{transaction} push a {item}\n")?)?;
    }
    Ok(())
}

// What they are answered where each is pushed.
fn push_indexes(rt: &impl Host, replies: &mut String, count: u32) -> Result<(), AllocError> {
    for index in 0..count {
        replies.push_str(&format!(in rt.alloc(); "ok {index}\n")?)?;
    }
    Ok(())
}

// Whether these lines, one push more than there is room for, and others are answered so. The pushes find room for so many items, and the next is answered as the
// second text begins.
fn pushes_go(
    rt: &impl Host,
    before: [&str; 2],
    transaction: char,
    items: u32,
    behind: [&str; 2],
) -> Result<bool, AllocError> {
    let [script, replies] = before;
    let mut script = script.to_string(rt.alloc())?;
    let mut replies = replies.to_string(rt.alloc())?;
    push_items(rt, &mut script, transaction, items.saturating_add(1))?;
    push_indexes(rt, &mut replies, items)?;
    let [more, answers] = behind;
    script.push_str(more)?;
    replies.push_str(answers)?;
    Ok(goes(rt, &script, &replies))
}

// Of 64 pages the array has all but one.
#[test]
fn as_many_pages_as_there_are(rt: HostRuntime) -> Result<(), Fail> {
    let before = ["t begin\nt make array a 256\n", "ok\nok\n"];
    let behind = ["", "error no-space 1 0 2\n"];
    assert!(rt; pushes_go(&rt, before, 't', 886, behind)?);
    Ok(())
}

// A key that is taken away may come back, so two pages are kept for it.
#[test]
fn pages_are_kept_for_undoing(rt: HostRuntime) -> Result<(), Fail> {
    let before = [
        "p begin\np make table h\np put h k v\np make array a 256\np commit\nt begin\nt del h k\nu begin\n",
        "ok\nok\nok new\nok\nok\nok\nok\nok\n",
    ];
    let behind = ["t abort\nu find h k", "error no-space 2 1 2\nok\nok v\n"];
    assert!(rt; pushes_go(&rt, before, 'u', 796, behind)?);
    Ok(())
}
