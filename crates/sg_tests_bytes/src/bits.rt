use sg_bits::{WORD_BITS, clear, is_full, is_set, next_clear, next_set, set};

// Sets a range and clears a bit of three words, where both are bits of them.
fn marked(first: u8, end: u8, cleared: u8) -> [u64; 3] {
    let mut words = [0; 3];
    if end <= 192 {
        set(&mut words, first as usize, end as usize);
    }
    if cleared < 192 {
        clear(&mut words, cleared as usize);
    }
    words
}

// The next set bit, the next clear one, whether this one is set, and whether its word is full.
fn seen(words: &[u64; 3], from: u8) -> (usize, usize, bool, bool) {
    if from >= 192 {
        return (0, 0, false, false);
    }
    let at = from as usize;
    (
        next_set(words, at),
        next_clear(words, at),
        is_set(words, at),
        is_full(words, at / WORD_BITS),
    )
}

const ALL: u64 = u64::MAX;

const LAST: u64 = 1 << 63;

const LAST_FOUR: u64 = 0xf << 60;

const ALL_BUT_FIRST: u64 = ALL - 1;

const ALL_BUT_LAST: u64 = ALL >> 1;

// The first bit and the end of a range, a bit that is cleared then, and what the words are.
const RANGES: [([u8; 3], [u64; 3]); 6] = [
    ([0, 0, 191], [0, 0, 0]),
    ([0, 64, 191], [ALL, 0, 0]),
    ([63, 65, 191], [LAST, 1, 0]),
    ([60, 130, 64], [LAST_FOUR, ALL_BUT_FIRST, 3]),
    ([0, 192, 191], [ALL, ALL, ALL_BUT_LAST]),
    ([5, 3, 191], [0, 0, 0]),
];

// The place of the first row whose words are others.
fn marked_otherwise() -> Option<usize> {
    for (at, ([first, end, cleared], words)) in RANGES.iter().enumerate() {
        if marked(*first, *end, *cleared) != *words {
            return Some(at);
        }
    }
    None
}

#[test]
fn ranges_go_across_words(rt: HostRuntime) {
    assert!(rt; marked_otherwise().is_none());
}

// A bit, and what is seen from there on.
const SEEN: [(u8, (usize, usize, bool, bool)); 6] = [
    (0, (3, 0, false, false)),
    (3, (3, 70, true, false)),
    (70, (71, 70, false, false)),
    (71, (71, 130, true, false)),
    (130, (192, 130, false, false)),
    (191, (192, 191, false, false)),
];

// The place of the first row of which something else is seen.
fn seen_otherwise(words: &[u64; 3]) -> Option<usize> {
    for (at, (from, want)) in SEEN.iter().enumerate() {
        if seen(words, *from) != *want {
            return Some(at);
        }
    }
    None
}

fn are_seen() -> bool {
    let other = seen_otherwise(&marked(3, 130, 70));
    let full = seen(&marked(0, 128, 191), 64);
    other.is_none() && full == (64, 128, true, true)
}

#[test]
fn searches_pass_words(rt: HostRuntime) {
    assert!(rt; are_seen());
}
