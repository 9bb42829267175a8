use crate::table::{OF_SEED_0, OF_SEED_1, OF_THE_GREATEST_SEED};
use sg_base::MemSink;
use sg_workload::{Gen, write_workload};
use std::alloc::{AllocError, Global};
use std::test::Fail;

const MAKING: &[u8] =
    b"s begin\ns make array a 8\ns make table h\ns make blob b\ns size b 100000\n";

// The first 200 lines of a workload, with those of the opening before the lines of a table.
fn wanted(alloc: Global, drawn: &[u8]) -> Result<Vec<u8>, AllocError> {
    let mut text = Vec::from_slice(alloc, MAKING)?;
    for _ in 0..64 {
        text.extend_from_slice(b"s push a x:0000000000000000\n")?;
    }
    text.extend_from_slice(b"s commit\n")?;
    text.extend_from_slice(drawn)?;
    Ok(text)
}

// Whether the text of a workload begins so.
fn begins(alloc: Global, seed: u64, text: &[u8]) -> bool {
    let mut sink = MemSink::new(alloc, None);
    write_workload(seed, 200, &mut sink).is_ok() && sink.text().starts_with(text)
}

// Whether the workload of a seed begins with the opening and these lines.
fn is_drawn(alloc: Global, seed: u64, drawn: &[u8]) -> Result<bool, AllocError> {
    let text = wanted(alloc, drawn)?;
    Ok(begins(alloc, seed, &text))
}

#[test]
fn seed_0_is_drawn_as_outside(rt: HostRuntime) -> Result<(), Fail> {
    assert!(rt; is_drawn(rt.alloc(), 0, OF_SEED_0)?);
    Ok(())
}

#[test]
fn seed_1_is_drawn_as_outside(rt: HostRuntime) -> Result<(), Fail> {
    assert!(rt; is_drawn(rt.alloc(), 1, OF_SEED_1)?);
    Ok(())
}

#[test]
fn the_greatest_seed_is_drawn_as_outside(rt: HostRuntime) -> Result<(), Fail> {
    assert!(rt; is_drawn(rt.alloc(), u64::MAX, OF_THE_GREATEST_SEED)?);
    Ok(())
}

// How many lines a workload has, by the generator's own answers, up to so many.
fn lines_of(alloc: Global, seed: u64, count: u32) -> usize {
    let mut sink = MemSink::new(alloc, None);
    let mut lines = Gen::new(seed, count);
    for number in 0..1_000usize {
        if !matches!(lines.next_line(&mut sink), Ok(true)) {
            return number;
        }
    }
    1_000
}

// A workload of no lines that are drawn has its opening alone, and one of 130 ends with the commits of those that are live.
#[test]
fn a_workload_ends(rt: HostRuntime) {
    assert_eq!(rt; lines_of(rt.alloc(), 0, 0), 70);
    assert_eq!(rt; lines_of(rt.alloc(), 0, 130), 203);
    assert_eq!(rt; lines_of(rt.alloc(), u64::MAX, 130), 202);
}

// Whether a sink whose third call fails has the first two lines then, and the workload answers so.
fn is_cut(alloc: Global) -> bool {
    let mut sink = MemSink::new(alloc, Some(3));
    write_workload(7, 1, &mut sink).is_err()
        && sink.text() == b"s begin\ns make array a 8\n".as_slice()
}

#[test]
fn a_sink_that_fails_cuts_a_workload(rt: HostRuntime) {
    assert!(rt; is_cut(rt.alloc()));
}
