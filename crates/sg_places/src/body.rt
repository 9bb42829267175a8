// Frames of a text.
ghost use Rattle.std.specs.Prelude.{◌≡◌, ◌+◌, ◌<◌, ◌≤◌, ◌++◌, ℕ, List, length, take, drop, Some, None, IfSome};
ghost use Rattle.sg_log.specs.Frames.{IsFrame};
ghost use Rattle.sg_record.specs.Records.{Record};
ghost use Rattle.sg_log.specs.Texts.{spelled_all};
ghost use Rattle.sg_places.specs.Text.{framed, framed_all, AreFrames, IsStretch};

use sg_base::read_u32;

/// How many bytes the body has of the frame that stands at this offset of the text, or none where no
/// whole frame stands there.
pub fn body_size(text: &[u8], at: usize) -> Option<usize>
    requires there { at < length text.now }
    ensures within { IfSome result (λ n. (0 < n) × (at + 5 + n ≤ length text.now)) }
    ensures size { (rs : List Record) (rest : List ℕ) → IsFrame rs → drop at text.now ≡ framed rs ++ rest → result ≡ Some (length (spelled_all rs)) }
    ensures short { (rs : List Record) (rest : List ℕ) (k : ℕ) → IsFrame rs → drop at text.now ≡ take k (framed rs ++ rest) → k < length (framed rs) → result ≡ None }
{
    let left = text.len() - at;
    if left < 5 || text[at] != 1 {
        return None;
    }
    let size = read_u32(&text[at + 1..]) as usize;
    if size == 0 || size > left - 5 {
        return None;
    }
    Some(size)
}

/// How many bytes at the front of the text are whole frames. Where the text is a front of the text of
/// some frames, these are as many of them as it has whole.
pub fn whole_frames(text: &[u8]) -> usize
    ensures within { result ≤ length text.now }
    ensures stretch { (frames : List (List Record)) (k : ℕ) → AreFrames frames → text.now ≡ take k (framed_all frames) → IsStretch frames text.now result }
{
    let mut at = 0;
    'frames: while at < text.len() {
        let Some(size) = body_size(text, at) else {
            return at;
        };
        at = at + 5 + size;
    }
    at
}
