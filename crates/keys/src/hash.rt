//! A 64-bit hash of a list of numbers: each number is mixed in by FNV-1a's step, and the end is spread over all bits.

ghost use Rattle.std.specs.Prelude.{◌≡◌};
ghost use Rattle.keys.specs.Hash.{mixed, spread};

/// The hash of no number, FNV's offset basis.
pub const SEED: u64 = 0xcbf2_9ce4_8422_2325;

const PRIME: u64 = 0x0000_0100_0000_01b3;

const FIRST_SPREAD: u64 = 0xff51_afd7_ed55_8ccd;

const SECOND_SPREAD: u64 = 0xc4ce_b9fe_1a85_ec53;

/// The hash so far with one number more.
#[tactic(auto, unfolding(crate::specs::Hash::mixed))]
pub fn mix(so_far: u64, number: u64) -> u64
    ensures { result ≡ mixed so_far number }
{
    (so_far ^ number).wrapping_mul(PRIME)
}

/// The hash as it is handed out: near-equal lists get far hashes, in the low bits and in the top byte.
#[tactic(auto, unfolding(crate::specs::Hash::spread, crate::specs::Hash::stirred))]
pub fn finish(so_far: u64) -> u64
    ensures { result ≡ spread so_far }
{
    let first = (so_far ^ (so_far >> 33)).wrapping_mul(FIRST_SPREAD);
    let second = (first ^ (first >> 33)).wrapping_mul(SECOND_SPREAD);
    second ^ (second >> 33)
}
