// The least common multiple of two numbers.
ghost use Rattle.std.specs.Prelude.{◌≡◌};
ghost use Rattle.semantics.specs.Scales.{lcm};
ghost use Rattle.scales.specs.Limited.{limited};
ghost use Rattle.scales.specs.Divisors.{Greatest};

// The greatest common divisor, by Euclid's algorithm.
fn greatest_common_divisor(first: u32, second: u32) -> u32
    ensures { Greatest first second result }
{
    if second == 0 {
        return first;
    }
    greatest_common_divisor(second, first % second)
}

// The largest scale that a station or a net may have.
const LARGEST_SCALE: u32 = 1_000_000;

// The number, or nothing where it is over the limit of scales.
fn within_limit(number: u64) -> Option<u32>
    ensures { result ≡ limited number }
{
    u32::try_from(number)
        .ok()
        .filter(|scale| *scale <= LARGEST_SCALE)
}

// The least common multiple, or nothing where it is over the limit of scales. With 0 it is the
// other number.
pub fn least_common_multiple(first: u32, second: u32) -> Option<u32>
    ensures { result ≡ limited (lcm first second) }
{
    if first == 0 {
        return within_limit(u64::from(second));
    }
    if second == 0 {
        return within_limit(u64::from(first));
    }
    let divisor = greatest_common_divisor(first, second);
    within_limit(u64::from(first / divisor) * u64::from(second))
}
