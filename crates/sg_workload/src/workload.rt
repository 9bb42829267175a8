ghost use Rattle.std.specs.Prelude.{◌≡◌, ◌<◌, ◌≤◌, true, false, [], ◌∷◌, IfOk, IfSome, IfNone, IsSome, OnOk, OnErr, codes, slice_get, option_map, option_copied, ◌++◌};
ghost use Rattle.sg_base.specs.Ends.{HasRisen, Takes, TakesFront};
ghost use Rattle.sg_workload.specs.Lines.{opening, next_verb, closing, drawn_lines, workload, text_of_lines};
ghost use Rattle.sg_workload.specs.Draws.{live_after};
ghost use Rattle.sg_workload.specs.Texts.{text_of};
ghost use Rattle.sg_workload.specs.Calls.{lines_left, WritesFirst, CutsFirst};

use crate::drawn::Verb;
use crate::draws::{draw, draw_verb};
use crate::line::write_line;
use rand_pcg::Lcg64Xsh32;
use sg_base::{Failed, Sink};

/// The stream of the generator, of which each seed begins one.
const STREAM: u64 = 54;

/// A workload of which some lines are left.
#[derive(Drop)]
pub struct Gen {
    random: Lcg64Xsh32,
    live: [bool; 3],
    begun: usize,
    left: u32,
}

// A line of the opening with its LF, by its place.
fn opening_line(at: usize) -> Option<&'static [u8]>
    ensures line { option_copied result ≡ option_map (λ line. line ++ codes "\n") (slice_get opening at) }
    ensures within { IsSome result → at < 70 }
{
    match at {
        0 => Some(b"s begin\n"),
        1 => Some(b"s make array a 8\n"),
        2 => Some(b"s make table h\n"),
        3 => Some(b"s make blob b\n"),
        4 => Some(b"s size b 100000\n"),
        5..=68 => Some(b"s push a x:0000000000000000\n"),
        69 => Some(b"s commit\n"),
        _ => None,
    }
}

// The verb of the next line of a transaction.
fn draw_next(live: bool, random: &mut Lcg64Xsh32) -> Verb
    ensures { (result, random.new) ≡ next_verb live random.old }
{
    if live { draw_verb(random) } else { Verb::Begin }
}

// Notes which transactions are live once one of them did this.
fn note(live: &mut [bool; 3], w: usize, verb: Verb)
    requires { w < 3 }
    ensures { live.new ≡ live_after verb w live.old }
{
    match verb {
        Verb::Begin => live[w] = true,
        Verb::Commit | Verb::Abort => live[w] = false,
        Verb::Apply { .. }
        | Verb::Put { .. }
        | Verb::Find { .. }
        | Verb::Del { .. }
        | Verb::Paint { .. }
        | Verb::Get { .. } => {}
    }
}

// The first of the transactions that are live.
fn first_live(live: &[bool; 3]) -> Option<u32>
    ensures some { IfSome result (λ w. w < 3 × (closing live.now ≡ text_of w Verb.Commit ∷ closing (live_after Verb.Commit w live.now))) }
    ensures none { IfNone result (closing live.now ≡ []) }
{
    if live[0] {
        Some(0)
    } else if live[1] {
        Some(1)
    } else if live[2] {
        Some(2)
    } else {
        None
    }
}

impl Gen {
    /// The workload of this seed, with so many lines that are drawn.
    pub fn new(seed: u64, count: u32) -> Gen
        ensures { lines_left result ≡ workload seed count }
    {
        Gen {
            random: Lcg64Xsh32::new(seed, STREAM),
            live: [false; 3],
            begun: 0,
            left: count,
        }
    }

    // Draws a line: the transaction's number, and the verb.
    fn draw_line(&mut self) -> (u32, Verb)
        requires { 0 < self.old.left }
        ensures line { drawn_lines self.old.left self.old.live self.old.random ≡ text_of result.0 result.1 ∷ drawn_lines self.new.left self.new.live self.new.random }
        ensures begun { self.new.begun ≡ self.old.begun }
    {
        self.left -= 1;
        let w = draw(&mut self.random, 3);
        let verb = draw_next(self.live[w as usize], &mut self.random);
        note(&mut self.live, w as usize, verb);
        (w, verb)
    }

    /// Writes the first line that is left, with its LF, in one call of the sink, and says whether there was one. The line counts as
    /// written where the sink failed, and then the sink took a front of it.
    pub fn next_line<K: Sink>(&mut self, out: &mut K) -> Result<bool, Failed>
        ensures line { IfOk result (λ more. more ≡ true → WritesFirst (lines_left self.old) (lines_left self.new) (K.taken out.old) (K.taken out.new)) }
        ensures end { IfOk result (λ more. more ≡ false → (lines_left self.old ≡ []) × (K.taken out.new ≡ K.taken out.old)) }
        ensures cut { OnErr result (CutsFirst (lines_left self.old) (lines_left self.new) (K.taken out.old) (K.taken out.new)) }
        ensures later { K.faults out.old ≤ K.faults out.new }
        ensures quiet { OnOk result (K.faults out.new ≡ K.faults out.old) }
        ensures failed { OnErr result (HasRisen (K.faults out.old) (K.faults out.new)) }
    {
        if let Some(line) = opening_line(self.begun) {
            self.begun += 1;
            return match out.write(line) {
                Ok(()) => Ok(true),
                Err(_) => Err(Failed),
            };
        }
        if self.left > 0 {
            let (w, verb) = self.draw_line();
            return match write_line(w, verb, out) {
                Ok(()) => Ok(true),
                Err(_) => Err(Failed),
            };
        }
        let Some(w) = first_live(&self.live) else {
            return Ok(false);
        };
        note(&mut self.live, w as usize, Verb::Commit);
        match write_line(w, Verb::Commit, out) {
            Ok(()) => Ok(true),
            Err(_) => Err(Failed),
        }
    }
}

/// Writes the workload of this seed with so many lines that are drawn: the lines of `specs/Lines.antt`, each with its LF and in one
/// call of the sink. Where the sink fails, it took a front of them, and nothing more is written.
pub fn write_workload<K: Sink>(seed: u64, count: u32, out: &mut K) -> Result<(), Failed>
    ensures took { OnOk result (Takes (K.taken out.old) (text_of_lines (workload seed count)) (K.taken out.new)) }
    ensures cut { OnErr result (TakesFront (K.taken out.old) (text_of_lines (workload seed count)) (K.taken out.new)) }
    ensures later { K.faults out.old ≤ K.faults out.new }
    ensures quiet { OnOk result (K.faults out.new ≡ K.faults out.old) }
    ensures failed { OnErr result (HasRisen (K.faults out.old) (K.faults out.new)) }
{
    let mut lines = Gen::new(seed, count);
    'lines: while lines.next_line(out)? {}
    Ok(())
}
