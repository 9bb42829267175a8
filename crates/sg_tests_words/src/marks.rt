use sg_words::{Marking, parse_marking};
use std::alloc::{AllocError, Global};
use std::test::Fail;

// What a line asks of the marks of transaction `t`: nothing, one more, or the way back to one with this
// number.
#[derive(Clone, Copy, PartialEq, Eq)]
enum Asks {
    Nothing,
    Save,
    Back(u16),
}

// What a line asks of the marks of transaction `t`.
fn asked(line: &[u8]) -> Asks {
    match parse_marking(line) {
        Some((name, marking)) if name.text() == b"t".as_slice() => match marking {
            Marking::Save => Asks::Save,
            Marking::Back(mark) => Asks::Back(mark),
        },
        _ => Asks::Nothing,
    }
}

// Lines, and what they ask. A mark has a number from 1 to 16, and each other number stands for none.
const LINES: [(&[u8], Asks); 30] = [
    (b"t save", Asks::Save),
    (b"  t   save \r", Asks::Save),
    (b"t save\r", Asks::Save),
    (b"t back 1", Asks::Back(1)),
    (b" t  back  16 \r", Asks::Back(16)),
    (b"t back 17", Asks::Back(0)),
    (b"t back 0", Asks::Back(0)),
    (b"t back 007", Asks::Back(7)),
    (b"t back 00000000000000000016", Asks::Back(16)),
    (b"t back 000000000000000000016", Asks::Nothing),
    (b"t back 65537", Asks::Back(0)),
    (b"t back 18446744073709551615", Asks::Back(0)),
    (b"t back 18446744073709551616", Asks::Nothing),
    (b"t back", Asks::Nothing),
    (b"t back 1 2", Asks::Nothing),
    (b"t back -1", Asks::Nothing),
    (b"t back x:01", Asks::Nothing),
    (b"t back one", Asks::Nothing),
    (b"t save 1", Asks::Nothing),
    (b"t Save", Asks::Nothing),
    (b"t saved", Asks::Nothing),
    (b"u save", Asks::Nothing),
    (b"T save", Asks::Nothing),
    (b"flush save", Asks::Nothing),
    (b"save", Asks::Nothing),
    (b"save t", Asks::Nothing),
    (b"t begin", Asks::Nothing),
    (b"# t save", Asks::Nothing),
    (b"t", Asks::Nothing),
    (b"", Asks::Nothing),
];

// The first line that asks something else.
fn first_wrong() -> Option<usize> {
    for (i, (line, want)) in LINES.iter().enumerate() {
        if asked(line) != *want {
            return Some(i);
        }
    }
    None
}

#[test]
fn a_line_asks_of_marks_what_it_says(rt: HostRuntime) {
    assert_eq!(rt; first_wrong(), None);
}

// `t save` with spaces behind it, as long as this.
fn spaced(alloc: Global, length: usize) -> Result<Vec<u8>, AllocError> {
    let mut line = Vec::from_slice(alloc, b"t save")?;
    line.resize(length, b' ')?;
    Ok(line)
}

// What the longest line and one a byte longer ask.
fn asked_of_long(alloc: Global) -> Result<[Asks; 2], AllocError> {
    let longest = spaced(alloc, 32768)?;
    let longer = spaced(alloc, 32769)?;
    Ok([asked(&longest), asked(&longer)])
}

#[test]
fn a_line_that_is_too_long_asks_nothing_of_marks(rt: HostRuntime) -> Result<(), Fail> {
    let asked = asked_of_long(rt.alloc())?;
    assert!(rt; asked == [Asks::Save, Asks::Nothing]);
    Ok(())
}
