ghost use Rattle.std.specs.Prelude.{◌≡◌};
ghost use Rattle.sg_linear.specs.Fnv.{fnv_1a};

/// Where the hash starts: that of the empty text.
const BASIS: u64 = 14_695_981_039_346_656_037;

/// By which each byte multiplies it.
const PRIME: u64 = 1_099_511_628_211;

/// The hash of the bytes.
pub fn fnv_1a(text: &[u8]) -> u64
    ensures { result ≡ fnv_1a text.now }
{
    let mut hash = BASIS;
    for byte in text {
        hash = (hash ^ u64::from(*byte)).wrapping_mul(PRIME);
    }
    hash
}
