use sg_segment::{Dirty, WINDOW, blind_write};

/// How many random marks the comparison makes.
const MARKS: u32 = 300;

// Marks a range, and answers whether it lies in a window.
fn mark(dirty: &mut Dirty, at: u32, count: u32) -> bool {
    let fits = at <= WINDOW && count <= WINDOW - at;
    if fits {
        dirty.mark(at, count);
    }
    fits
}

fn run_from(dirty: &Dirty, from: u32) -> Option<(u32, u32)> {
    dirty.next_run(from)
}

// One call, and what it finds.
#[derive(Clone, Copy)]
enum Step {
    Mark(u32, u32),
    Clear,
    // From here on the first run begins there and has so many bytes, or there is none.
    Run(u32, u32, u32),
    NoRun(u32),
    RunCount(u32),
}

// Whether the call finds this.
fn goes(dirty: &mut Dirty, step: Step) -> bool {
    match step {
        Step::Mark(at, count) => mark(dirty, at, count),
        Step::Clear => {
            dirty.clear();
            true
        }
        Step::Run(from, at, count) => run_from(dirty, from) == Some((at, count)),
        Step::NoRun(from) => run_from(dirty, from).is_none(),
        Step::RunCount(count) => dirty.run_count() == count,
    }
}

// The place of the first of these calls, on a window of which nothing is marked, that finds something else.
fn first_wrong(steps: &[Step]) -> Option<usize> {
    let mut dirty = Dirty::new();
    for (at, step) in steps.iter().enumerate() {
        if !goes(&mut dirty, *step) {
            return Some(at);
        }
    }
    None
}

// Goes from run to run of `dirty`, and answers whether each is the one of `plain`.
fn is_same(dirty: &Dirty, plain: &[bool; 32_768]) -> bool {
    let mut from = 0u32;
    for _ in 0..32_768 {
        let found = run_from(dirty, from);
        if found != run_in(plain, from) {
            return false;
        }
        match found {
            Some((at, count)) => from = at.saturating_add(count),
            None => return true,
        }
    }
    true
}

/// The first run of `plain` at or after `from`, byte by byte.
fn run_in(plain: &[bool; 32_768], from: u32) -> Option<(u32, u32)> {
    let mut count = 0u32;
    for k in from..32_768 {
        if plain[k as usize] {
            count = count.saturating_add(1);
        } else if count > 0 {
            return Some((k.saturating_sub(count), count));
        }
    }
    if count > 0 {
        Some((32_768u32.saturating_sub(count), count))
    } else {
        None
    }
}

/// Marks `count` bytes of `plain` from `at` on, byte by byte.
fn mark_plain(plain: &mut [bool; 32_768], at: usize, count: usize) {
    for marked in plain.iter_mut().skip(at).take(count) {
        *marked = true;
    }
}

const AT_FIRST: [Step; 3] = [Step::NoRun(0), Step::NoRun(32_768), Step::NoRun(u32::MAX)];

#[test]
fn nothing_is_marked_at_first(rt: HostRuntime) {
    assert!(rt; first_wrong(&AT_FIRST).is_none());
}

const ACROSS: [Step; 12] = [
    Step::Mark(63, 2),
    Step::Run(0, 63, 2),
    Step::Run(64, 64, 1),
    Step::NoRun(65),
    Step::Mark(128, 64),
    Step::Mark(192, 1),
    Step::Run(65, 128, 65),
    Step::Mark(65, 63),
    Step::Run(0, 63, 130),
    Step::Run(100, 100, 93),
    Step::Mark(200, 56),
    Step::RunCount(2),
];

#[test]
fn runs_go_across_words(rt: HostRuntime) {
    assert!(rt; first_wrong(&ACROSS).is_none());
}

const ENDS: [Step; 10] = [
    Step::Mark(0, 1),
    Step::Mark(32_767, 1),
    Step::Run(0, 0, 1),
    Step::Run(1, 32_767, 1),
    Step::Run(32_767, 32_767, 1),
    Step::NoRun(32_768),
    Step::Mark(0, 32_768),
    Step::Run(0, 0, 32_768),
    Step::Clear,
    Step::NoRun(0),
];

#[test]
fn the_ends_of_a_window(rt: HostRuntime) {
    assert!(rt; first_wrong(&ENDS).is_none());
}

const EMPTY: [Step; 7] = [
    Step::Mark(0, 0),
    Step::Mark(64, 0),
    Step::Mark(32_768, 0),
    Step::NoRun(0),
    Step::Mark(5, 1),
    Step::Mark(6, 0),
    Step::Run(0, 5, 1),
];

#[test]
fn an_empty_range_marks_nothing(rt: HostRuntime) {
    assert!(rt; first_wrong(&EMPTY).is_none());
}

// A window of sevens, and the marks of what is written there.
#[derive(Drop)]
struct Written {
    window: [u8; 32_768],
    dirty: Dirty,
}

impl Written {
    fn new() -> Written {
        Written {
            window: [7; 32_768],
            dirty: Dirty::new(),
        }
    }

    // Writes these bytes, and answers whether they lie in the window.
    fn write(&mut self, at: u32, bytes: &[u8]) -> bool {
        let fits = at <= WINDOW && bytes.len() <= (WINDOW - at) as usize;
        if fits {
            blind_write(&mut self.window, &mut self.dirty, at, bytes);
        }
        fits
    }

    // Whether these bytes stand there.
    fn has(&self, at: usize, bytes: &[u8]) -> bool {
        match self.window.get(at..) {
            Some(rest) => rest.starts_with(bytes),
            None => false,
        }
    }

    // Whether the first run from here on begins there and has so many bytes.
    fn has_run(&self, from: u32, at: u32, count: u32) -> bool {
        run_from(&self.dirty, from) == Some((at, count))
    }
}

fn sets_and_marks() -> bool {
    let mut written = Written::new();
    let first = written.write(62, b"abcd")
        && written.has(61, b"\x07abcd\x07")
        && written.has_run(0, 62, 4);
    let last = written.write(32_767, b"z")
        && written.has(32_766, b"\x07z")
        && written.has_run(66, 32_767, 1);
    let none = written.write(0, b"") && written.has(0, &[7]) && written.has_run(0, 62, 4);
    first && last && none
}

#[test]
fn a_blind_write_sets_and_marks(rt: HostRuntime) {
    assert!(rt; sets_and_marks());
}

// The marks, the same byte by byte, and a number that looks random.
#[derive(Drop)]
struct Random {
    dirty: Dirty,
    plain: [bool; 32_768],
    seed: u64,
}

impl Random {
    fn new() -> Random {
        Random {
            dirty: Dirty::new(),
            plain: [false; 32_768],
            seed: 0x2545_f491_4f6c_dd1d,
        }
    }

    // Goes on to the next number.
    fn next(&mut self) -> u64 {
        self.seed = self
            .seed
            .wrapping_mul(6_364_136_223_846_793_005)
            .wrapping_add(1_442_695_040_888_963_407);
        self.seed
    }

    // Marks up to so many bytes in both, and answers whether they lie in a window.
    fn mark(&mut self, most: u32) -> bool {
        let (at, count) = range_of(self.next(), most);
        mark_plain(&mut self.plain, at as usize, count as usize);
        mark(&mut self.dirty, at, count)
    }

    fn is_same(&self) -> bool {
        is_same(&self.dirty, &self.plain)
    }
}

// The place of the range that a number says, and how many bytes it has, fewer than `most`.
fn range_of(seed: u64, most: u32) -> (u32, u32) {
    let at = ((seed >> 40) % 32_768) as u32;
    let count = ((seed >> 20) % u64::from(most.max(1))) as u32;
    (at, count.min(32_768 - at))
}

// The number of the first of the random marks behind which both aren't the same.
fn first_other() -> Option<u32> {
    let mut random = Random::new();
    for n in 0..MARKS {
        let most = if n % 20 == 0 { 3_000 } else { 90 };
        if !random.mark(most) || n % 10 == 0 && !random.is_same() {
            return Some(n);
        }
    }
    if random.is_same() { None } else { Some(MARKS) }
}

#[test]
fn random_marks_are_those_of_a_plain_array(rt: HostRuntime) {
    assert!(rt; first_other().is_none());
}
