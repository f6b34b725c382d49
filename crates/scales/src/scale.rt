// The scale of a list of denominators, and times in ticks.
ghost use Rattle.std.specs.Prelude.{◌≡◌};
ghost use Rattle.semantics.specs.Scales.{lcm_all, ticks};
ghost use Rattle.scales.specs.Limited.{limited, grown};

use super::multiple::least_common_multiple;
use book::record::Fraction;

// The scale so far, with one more denominator; nothing once it is over the limit.
pub fn grow(scale: Option<u32>, denominator: u32) -> Option<u32>
    ensures { result ≡ grown scale denominator }
{
    least_common_multiple(scale?, denominator)
}

// The scale of these denominators, or of these scales, or nothing where it is over the limit. A
// denominator of 0 counts for nothing.
#[tactic(auto, using(crate::proofs::Multiples::scale_by_fold))]
pub fn scale_of(denominators: &[u32]) -> Option<u32>
    ensures { result ≡ limited (lcm_all 1 denominators.now) }
{
    denominators.iter().copied().fold(Some(1), grow)
}

// A time in ticks, `scale` to the second; 0 where the denominator is 0.
pub fn in_ticks(scale: u32, time: Fraction) -> u64
    ensures { result ≡ ticks scale time }
{
    let parts = u64::from(time.numerator) * u64::from(scale);
    parts.checked_div(u64::from(time.denominator)).unwrap_or(0)
}
