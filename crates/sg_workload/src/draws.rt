ghost use Rattle.std.specs.Prelude.{◌≡◌, ◌<◌, ◌≤◌};
ghost use Rattle.sg_workload.specs.Draws.{word, draw, drawn_apply, drawn_put, drawn_find, drawn_del, drawn_paint, drawn_get, drawn_verb};

use crate::drawn::Verb;
use rand_core::utils::NextWord;
use rand_pcg::Lcg64Xsh32;

// One word of 32 bits.
#[tactic(auto, unfolding(crate::specs::Draws::word))]
fn draw_word(random: &mut Lcg64Xsh32) -> u32
    ensures { (result, random.new) ≡ word random.old }
{
    random.next_word()
}

/// A number below `n`, from one word.
pub fn draw(random: &mut Lcg64Xsh32, n: u32) -> u32
    requires { 0 < n }
    ensures drawn { (result, random.new) ≡ draw n random.old }
    ensures below { result < n }
{
    draw_word(random) % n
}

fn draw_apply(random: &mut Lcg64Xsh32) -> Verb
    ensures { (result, random.new) ≡ drawn_apply random.old }
{
    let index = draw(random, 64);
    let amount = draw(random, 1_000);
    Verb::Apply { index, amount }
}

fn draw_put(random: &mut Lcg64Xsh32) -> Verb
    ensures { (result, random.new) ≡ drawn_put random.old }
{
    let key = draw(random, 2_000);
    let value = draw_word(random);
    Verb::Put { key, value }
}

fn draw_find(random: &mut Lcg64Xsh32) -> Verb
    ensures { (result, random.new) ≡ drawn_find random.old }
{
    let key = draw(random, 2_000);
    Verb::Find { key }
}

fn draw_del(random: &mut Lcg64Xsh32) -> Verb
    ensures { (result, random.new) ≡ drawn_del random.old }
{
    let key = draw(random, 2_000);
    Verb::Del { key }
}

fn draw_paint(random: &mut Lcg64Xsh32) -> Verb
    ensures { (result, random.new) ≡ drawn_paint random.old }
{
    let at = draw(random, 90_000);
    let length = 1 + draw(random, 10_000);
    let byte = draw(random, 256) as u8;
    Verb::Paint { at, length, byte }
}

fn draw_get(random: &mut Lcg64Xsh32) -> Verb
    ensures { (result, random.new) ≡ drawn_get random.old }
{
    let index = draw(random, 64);
    Verb::Get { index }
}

/// The verb of a live transaction.
pub fn draw_verb(random: &mut Lcg64Xsh32) -> Verb
    ensures { (result, random.new) ≡ drawn_verb random.old }
{
    match draw(random, 16) {
        0 | 1 => Verb::Commit,
        2 => Verb::Abort,
        3..=5 => draw_apply(random),
        6..=10 => draw_put(random),
        11 | 12 => draw_find(random),
        13 => draw_del(random),
        14 => draw_paint(random),
        _ => draw_get(random),
    }
}
