ghost use Rattle.std.specs.Prelude.{◌≡◌, ℕ, ◌<◌, ◌≤◌, ◌↔◌};
ghost use Rattle.sg_bits.specs.Bits.{HasBit};

/// The word whose ones are the bits from `first` up to `end`, which is not one of them.
pub fn ones_between(first: usize, end: usize) -> u64
    requires some { first < end }
    requires fits { end ≤ 64 }
    ensures { (k : ℕ) → HasBit result k ↔ ((first ≤ k) × (k < end)) }
{
    (u64::MAX << first) & (u64::MAX >> (64 - end))
}

/// The lowest one of `word` at or after bit `from`, or 64 where there is none.
pub fn lowest_from(word: u64, from: usize) -> usize
    requires { from < 64 }
    ensures after { from ≤ result }
    ensures bound { result ≤ 64 }
    ensures skipped { (k : ℕ) → from ≤ k → k < result → HasBit word k → ⊥ }
    ensures found { result < 64 → HasBit word result }
{
    let rest = word >> from;
    if rest == 0 {
        64
    } else {
        from + rest.trailing_zeros() as usize
    }
}
