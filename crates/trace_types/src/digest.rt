//! Digests of pairs.
ghost use Rattle.std.specs.Prelude.{◌≡◌};
ghost use Rattle.trace_types.specs.clock.Digest.{digest_of_both};

/// 2^64 divided by the golden ratio, which is odd: the factor of Fibonacci hashing (Knuth 1973).
const MULTIPLIER: u64 = 0x9E37_79B9_7F4A_7C15;

/// The digest of a pair, from those of its parts, by one multiplication.
///
/// Most pairs that differ have different digests. An attacker can make two pairs that share one, so equal digests never
/// prove that pairs are equal.
#[inline(always)]
pub fn digest_of_both(first: u64, second: u64) -> u64
    ensures { result ≡ digest_of_both first second }
{
    let product = (first.rotate_left(31) ^ second).wrapping_mul(MULTIPLIER);
    product ^ (product >> 32)
}
