use crate::table::{Refused, Table, drawn, entries, key_of, lay};
use sg_index::{IndexFault, get, insert, next, remove};
use std::alloc::{AllocError, Global};
use std::test::Fail;

// What `get` answers, as the value.
fn value(
    table: &mut Table,
    key: &[u8],
    into: &mut [u8; 64],
) -> Result<Option<usize>, IndexFault<Refused>> {
    let key = &key[..key.len().min(64)];
    if key.is_empty() {
        return Ok(None);
    }
    get(table, key, into)
}

// What `next` answers, as the lengths of the key and of the value.
fn first(
    table: &mut Table,
    from: &[u8],
    strict: bool,
    key: &mut [u8; 64],
    value: &mut [u8; 64],
) -> Result<Option<(usize, usize)>, IndexFault<Refused>> {
    let from = &from[..from.len().min(64)];
    if from.is_empty() {
        return Ok(None);
    }
    next(table, from, strict, key, value)
}

// What `insert` answers.
fn put(table: &mut Table, key: &[u8], value: &[u8]) -> Result<bool, IndexFault<Refused>> {
    let key = &key[..key.len().min(64)];
    if key.is_empty() {
        return Ok(false);
    }
    insert(table, key, &value[..value.len().min(64)])
}

// What `remove` answers.
fn take(table: &mut Table, key: &[u8]) -> Result<bool, IndexFault<Refused>> {
    let key = &key[..key.len().min(64)];
    if key.is_empty() {
        return Ok(false);
    }
    remove(table, key)
}

// A list of entries whose keys rise.
type Entries = Vec<(Vec<u8>, Vec<u8>)>;

// The place of a key in the list, or where it would stand.
fn place(list: &Entries, key: &[u8]) -> Result<usize, usize> {
    list.binary_search_by(|e| e.0.as_slice().cmp(key))
}

// Maps a key to a value, and answers whether the key is new.
fn list_put(list: &mut Entries, key: &Vec<u8>, value: Vec<u8>) -> Result<bool, AllocError> {
    match list.binary_search_by(|e| e.0.as_slice().cmp(key.as_slice())) {
        Ok(at) => {
            if let Some(e) = list.get_mut(at) {
                e.1 = value;
            }
            Ok(false)
        }
        Err(at) => {
            list.insert(at, (key.clone()?, value))?;
            Ok(true)
        }
    }
}

// Takes a key away, and answers whether it was there.
fn list_take(list: &mut Entries, key: &[u8]) -> bool {
    let Ok(at) = place(list, key) else {
        return false;
    };
    if at < list.len() {
        list.remove(at);
    }
    true
}

// A key of the list, or one that is drawn.
fn some_key(alloc: Global, list: &Entries, state: u64) -> Result<Vec<u8>, AllocError> {
    let count = list.len() as u64;
    if state % 3 > 0 && count > 0 {
        let at = (state >> 20) % count;
        if let Some(e) = list.get(at as usize) {
            return e.0.clone();
        }
    }
    key_of(alloc, state)
}

// A front of a buffer.
fn front(bytes: &[u8; 64], size: usize) -> &[u8] {
    &bytes[..size.min(64)]
}

#[test]
fn drawn_calls_answer_what_a_sorted_list_does(rt: HostRuntime) -> Result<(), Fail> {
    let list = entries(rt.alloc(), 700)?;
    let mut table = lay(rt.alloc(), &list)?;
    assert_eq!(rt;
        table.header.as_slice(),
        [78, 0, 0, 0, 79, 0, 0, 0, 3].as_slice()
    );
    let mut state = 1u64;
    let mut key = [0; 64];
    let mut found = [0; 64];
    for call in 0..100_000u32 {
        state = drawn(state.wrapping_add(1));
        let asked = key_of(rt.alloc(), state)?;
        let place = list.binary_search_by(|e| e.0.as_slice().cmp(asked.as_slice()));
        if call % 2 == 0 {
            let size = value(&mut table, &asked, &mut found).ok().flatten();
            let wanted = place
                .ok()
                .and_then(|at| list.get(at))
                .map(|e| e.1.as_slice());
            assert!(rt; size.map(|n| front(&found, n)) == wanted);
        } else {
            let strict = call % 4 == 1;
            let at = match place {
                Ok(at) if strict => at + 1,
                Ok(at) => at,
                Err(at) => at,
            };
            let sizes = first(&mut table, &asked, strict, &mut key, &mut found)
                .ok()
                .flatten();
            let wanted = list.get(at);
            assert!(rt; sizes.map(|s| front(&key, s.0)) == wanted.map(|e| e.0.as_slice()));
            assert!(rt; sizes.map(|s| front(&found, s.1)) == wanted.map(|e| e.1.as_slice()));
        }
    }
    Ok(())
}

#[test]
fn a_walk_by_next_gives_each_entry_once(rt: HostRuntime) -> Result<(), Fail> {
    let list = entries(rt.alloc(), 300)?;
    let mut table = lay(rt.alloc(), &list)?;
    let mut from = Vec::new(rt.alloc());
    from.push(0)?;
    let mut key = [0; 64];
    let mut found = [0; 64];
    let mut strict = false;
    for (wanted, _) in &list {
        let sizes = first(&mut table, &from, strict, &mut key, &mut found)
            .ok()
            .flatten();
        assert!(rt; sizes.map(|s| front(&key, s.0)) == Some(wanted.as_slice()));
        from = wanted.clone()?;
        strict = true;
    }
    assert!(rt; first(&mut table, &from, true, &mut key, &mut found) == Ok(None));
    Ok(())
}

#[test]
fn damage_is_named_and_a_refusal_is_handed_on(rt: HostRuntime) -> Result<(), Fail> {
    let list = entries(rt.alloc(), 100)?;
    let mut table = lay(rt.alloc(), &list)?;
    let mut found = [0; 64];
    table.passes = 2;
    assert!(rt; value(&mut table, b"a", &mut found) == Err(IndexFault::Records(Refused)));
    table.passes = 1_000;
    assert!(rt; value(&mut table, b"a", &mut found) == Ok(None));
    // A leaf that is cut, one that isn't there, a header of nine bytes whose height is 17.
    if let Some(node) = table.nodes.get_mut(10) {
        node.truncate(20);
    }
    assert!(rt; value(&mut table, b"a", &mut found) == Err(IndexFault::NotAnIndex));
    table.nodes.truncate(5);
    assert!(rt; value(&mut table, b"a", &mut found) == Err(IndexFault::NotAnIndex));
    if let Some(height) = table.header.last_mut() {
        *height = 17;
    }
    assert!(rt; value(&mut table, b"a", &mut found) == Err(IndexFault::NotAnIndex));
    Ok(())
}

// 20,000 calls that are drawn, of which most put entries in for a while and then most take them away.
// Answers whether each answered what the sorted list does.
fn drawn_changes(alloc: Global, start: u64) -> Result<bool, AllocError> {
    let mut list: Entries = Vec::new(alloc);
    let mut table = lay(alloc, &list)?;
    table.header = Vec::new(alloc);
    let mut state = start;
    let mut key = [0; 64];
    let mut found = [0; 64];
    for call in 0..20_000u32 {
        state = drawn(state.wrapping_add(1));
        let growing = call / 5_000 % 2 == 0;
        let kind = (state >> 8) % 8;
        if kind == 0 {
            let asked = some_key(alloc, &list, state)?;
            let size = value(&mut table, &asked, &mut found).ok().flatten();
            let wanted = place(&list, &asked)
                .ok()
                .and_then(|at| list.get(at))
                .map(|e| e.1.as_slice());
            if size.map(|n| front(&found, n)) != wanted {
                return Ok(false);
            }
        } else if kind == 1 {
            let asked = some_key(alloc, &list, state)?;
            let at = match place(&list, &asked) {
                Ok(at) => at.saturating_add(1),
                Err(at) => at,
            };
            let sizes = first(&mut table, &asked, true, &mut key, &mut found)
                .ok()
                .flatten();
            let wanted = list.get(at);
            if sizes.map(|s| front(&key, s.0)) != wanted.map(|e| e.0.as_slice()) {
                return Ok(false);
            }
            if sizes.map(|s| front(&found, s.1)) != wanted.map(|e| e.1.as_slice()) {
                return Ok(false);
            }
        } else if (kind < 6) == growing {
            let asked = key_of(alloc, state)?;
            let with = key_of(alloc, drawn(state))?;
            let done = put(&mut table, &asked, &with);
            let new = list_put(&mut list, &asked, with)?;
            if done != Ok(new) {
                return Ok(false);
            }
        } else {
            let asked = some_key(alloc, &list, state)?;
            let done = take(&mut table, &asked);
            let there = list_take(&mut list, &asked);
            if done != Ok(there) {
                return Ok(false);
            }
        }
    }
    Ok(true)
}

#[test]
fn drawn_changes_do_what_a_sorted_list_does_first(rt: HostRuntime) -> Result<(), Fail> {
    assert!(rt; drawn_changes(rt.alloc(), 7)?);
    Ok(())
}

#[test]
fn drawn_changes_do_what_a_sorted_list_does_second(rt: HostRuntime) -> Result<(), Fail> {
    assert!(rt; drawn_changes(rt.alloc(), 70001)?);
    Ok(())
}

#[test]
fn drawn_changes_do_what_a_sorted_list_does_third(rt: HostRuntime) -> Result<(), Fail> {
    assert!(rt; drawn_changes(rt.alloc(), 1700003)?);
    Ok(())
}

#[test]
fn drawn_changes_do_what_a_sorted_list_does_fourth(rt: HostRuntime) -> Result<(), Fail> {
    assert!(rt; drawn_changes(rt.alloc(), 55000017)?);
    Ok(())
}

#[test]
fn drawn_changes_do_what_a_sorted_list_does_fifth(rt: HostRuntime) -> Result<(), Fail> {
    assert!(rt; drawn_changes(rt.alloc(), 900000041)?);
    Ok(())
}

#[test]
fn a_root_grows_and_is_lowered(rt: HostRuntime) -> Result<(), Fail> {
    let list: Entries = Vec::new(rt.alloc());
    let mut table = lay(rt.alloc(), &list)?;
    table.header = Vec::new(rt.alloc());
    for i in 0..15u8 {
        assert!(rt; put(&mut table, &[b'k', b'a' + i], b"v") == Ok(true));
    }
    assert_eq!(rt;
        table.header.as_slice(),
        [3, 0, 0, 0, 4, 0, 0, 0, 2].as_slice()
    );
    assert!(rt; put(&mut table, b"kc", b"w") == Ok(false));
    assert!(rt; take(&mut table, b"kb") == Ok(true));
    assert!(rt; take(&mut table, b"kb") == Ok(false));
    assert_eq!(rt;
        table.header.as_slice(),
        [1, 0, 0, 0, 4, 0, 0, 0, 1].as_slice()
    );
    // There is no number left for a new node, and the one leaf has fourteen entries.
    table.header.truncate(4);
    table.header.extend_from_slice(&[255, 255, 255, 255, 1])?;
    assert!(rt; put(&mut table, b"kc", b"u") == Ok(false));
    assert!(rt; put(&mut table, b"kb", b"u") == Err(IndexFault::TooMany));
    Ok(())
}
