ghost use Rattle.std.specs.Prelude.{◌<◌};

use sg_base::MemSource;
use sg_command::{SizesFault, read_sizes};
use sg_geometry::Geometry;
use std::alloc::{AllocError, Global};
use std::test::Fail;

// Sizes in 46 bytes, of which many fronts say fit sizes, too.
const TEXT: &[u8] = b"windows = 4\nframes = 32\nbands = 4\npages = 64\n\n";

const SIZES: Geometry = Geometry {
    pages: 64,
    bands: 4,
    frames: 32,
    windows: 4,
};

type Read = Result<Geometry, SizesFault>;

// What is read of a text that comes in pieces of so many bytes, where the call of this number is the first that fails.
fn read_of(alloc: Global, text: &[u8], piece: usize, fail: Option<u64>) -> Result<Read, AllocError>
    requires { 0 < piece }
{
    let mut source = MemSource::new(Vec::from_slice(alloc, text)?, piece, fail);
    Ok(read_sizes(alloc, &mut source))
}

#[test]
fn sizes_are_read_in_pieces(rt: HostRuntime) -> Result<(), Fail> {
    assert_eq!(rt; read_of(rt.alloc(), TEXT, 1, None)?, Ok(SIZES));
    assert_eq!(rt; read_of(rt.alloc(), TEXT, 7, None)?, Ok(SIZES));
    assert_eq!(rt; read_of(rt.alloc(), TEXT, 4_096, None)?, Ok(SIZES));
    Ok(())
}

#[test]
fn other_texts_are_bad(rt: HostRuntime) -> Result<(), Fail> {
    let bad = Err(SizesFault::Bad);
    assert_eq!(rt; read_of(rt.alloc(), b"pages = 63\n", 4, None)?, bad);
    Ok(())
}

// Whether the source's fault is told, whichever of the seven reads and of the one that finds the end fails.
fn faults_are_told(alloc: Global) -> Result<bool, AllocError> {
    for call in 1..9 {
        if read_of(alloc, TEXT, 7, Some(call))? != Err(SizesFault::Read) {
            return Ok(false);
        }
    }
    Ok(true)
}

#[test]
fn a_source_fails_in_the_middle(rt: HostRuntime) -> Result<(), Fail> {
    assert!(rt; faults_are_told(rt.alloc())?);
    assert_eq!(rt; read_of(rt.alloc(), TEXT, 7, Some(9))?, Ok(SIZES));
    Ok(())
}

// What is read of so many bytes of remarks in pieces of 4,096.
fn read_remarks(alloc: Global, size: usize, fail: Option<u64>) -> Result<Read, AllocError> {
    let text = vec![in alloc; b'#'; size]?;
    read_of(alloc, &text, 4_096, fail)
}

// The longest text takes 16 reads and one that finds the end. Of a longer one the seventeenth gives the byte that is too many, and no more is asked for.
#[test]
fn the_longest_text_is_read_to_its_end(rt: HostRuntime) -> Result<(), Fail> {
    let usual = Ok(Geometry::default());
    let failed = Err(SizesFault::Read);
    assert_eq!(rt; read_remarks(rt.alloc(), 65_536, Some(18))?, usual);
    assert_eq!(rt; read_remarks(rt.alloc(), 65_536, Some(17))?, failed);
    Ok(())
}

#[test]
fn a_longer_text_is_bad(rt: HostRuntime) -> Result<(), Fail> {
    let bad = Err(SizesFault::Bad);
    assert_eq!(rt; read_remarks(rt.alloc(), 65_537, Some(18))?, bad);
    assert_eq!(rt; read_remarks(rt.alloc(), 70_000, Some(18))?, bad);
    Ok(())
}
