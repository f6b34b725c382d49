// Fractions as they stand in a book.
ghost use Rattle.std.specs.Prelude.{◌≡◌};
ghost use Rattle.model_rules.specs.Rules.{wrong_time, wrong_lifetime, wrong_high};

use book::record::{Fraction, HighEnd};
use fields::model::is_endless;

const MOST_NUMERATOR: u32 = 1_000_000;

const MOST_DENOMINATOR: u32 = 1_000;

// Whether the fraction is no time, or past the limits.
pub fn is_wrong_time(time: Fraction) -> bool
    ensures { result ≡ wrong_time time }
{
    time.numerator > MOST_NUMERATOR || time.denominator > MOST_DENOMINATOR || time.denominator == 0
}

// Whether the lifetime is neither endless nor a time within the limits.
pub fn is_wrong_lifetime(time: Fraction) -> bool
    ensures { result ≡ wrong_lifetime time }
{
    !is_endless(time) && is_wrong_time(time)
}

// Whether there is a high end that is not a time within the limits.
pub fn is_wrong_high(high: HighEnd<Fraction>) -> bool
    ensures { result ≡ wrong_high high }
{
    high.end().is_some_and(is_wrong_time)
}
