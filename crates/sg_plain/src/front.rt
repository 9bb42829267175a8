ghost use Rattle.std.specs.Prelude.{◌≡◌, ◌≤◌, length, take};

// Writes the bytes at the front of a buffer.
#[tactic(auto, using(crate::proofs::Found::front))]
pub fn put_front(into: &mut [u8], bytes: &[u8])
    requires { length bytes.now ≤ length into.old }
    ensures { take (length bytes.now) into.new ≡ bytes.now }
{
    into[..bytes.len()].copy_from_slice(bytes);
}
