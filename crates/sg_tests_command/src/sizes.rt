use sg_command::{GeometryError, parse_geometry};
use sg_geometry::Geometry;
use std::alloc::Global;

// A text, and the pages, bands, frames and windows that it says.
const FIT: [(&[u8], [u32; 4]); 6] = [
    (b"", [16384, 1024, 256, 32]),
    (b"# nothing\n", [16384, 1024, 256, 32]),
    (b"pages = 64\n", [64, 1024, 256, 32]),
    (
        b"windows = 4\nframes = 32\nbands = 4\npages = 64\n",
        [64, 4, 32, 4],
    ),
    (
        b"pages = 1_048_576\nbands = 65536\nframes = 16384\nwindows = 256",
        [1048576, 65536, 16384, 256],
    ),
    (b"\"pages\" = 0x40 # a quoted key\n", [64, 1024, 256, 32]),
];

// Texts that say no fit sizes.
const BAD: [&[u8]; 17] = [
    b"pages = 63\n",
    b"pages = 1048577\n",
    b"bands = 3\n",
    b"bands = 65537\n",
    b"pages = 1048576\nbands = 4\n",
    b"frames = 31\n",
    b"frames = 16385\n",
    b"windows = 3\n",
    b"windows = 257\n",
    b"pages = -64\n",
    b"pages = 4294967360\n",
    b"pages = 64.0\n",
    b"pages = \"64\"\n",
    b"page = 64\n",
    b"pages = 64\npages = 64\n",
    b"pages = \n",
    b"pages = 64 # \xff\n",
];

fn is_said(alloc: Global, text: &[u8], sizes: [u32; 4]) -> bool {
    let [pages, bands, frames, windows] = sizes;
    let wanted = Geometry {
        pages,
        bands,
        frames,
        windows,
    };
    parse_geometry(alloc, text) == Ok(wanted)
}

fn first_said(alloc: Global) -> Option<usize> {
    for (i, (text, sizes)) in FIT.iter().enumerate() {
        if !is_said(alloc, text, *sizes) {
            return Some(i);
        }
    }
    None
}

#[test]
fn fit_sizes_are_read(rt: HostRuntime) {
    assert_eq!(rt; first_said(rt.alloc()), None);
}

fn is_bad(alloc: Global, text: &[u8]) -> bool {
    parse_geometry(alloc, text) == Err(GeometryError::Bad)
}

fn first_bad(alloc: Global) -> Option<usize> {
    for (i, text) in BAD.iter().enumerate() {
        if !is_bad(alloc, text) {
            return Some(i);
        }
    }
    None
}

#[test]
fn other_texts_are_refused(rt: HostRuntime) {
    assert_eq!(rt; first_bad(rt.alloc()), None);
}

// Whether remarks up to the most bytes are read, and one more byte is refused.
fn length_counts(alloc: Global) -> bool {
    let text = [b'#'; 65_537];
    is_said(alloc, &text[..65_536], [16384, 1024, 256, 32]) && is_bad(alloc, &text)
}

#[test]
fn a_long_text_is_refused(rt: HostRuntime) {
    assert!(rt; length_counts(rt.alloc()));
}
