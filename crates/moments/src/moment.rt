// Moments, and their order.
ghost use Rattle.std.specs.Prelude.{◌≡◌, ◌*◌, ◌≤◌, true};
ghost use Rattle.semantics.specs.Times.{whole};
ghost use Rattle.moments.specs.declared.moment.Moment.{Moment};
ghost use Rattle.moments.specs.Moments.{time_of, parts_allowed};

use book::record::Fraction;
use spans::time::Time;

// A time as a fraction, in seconds or in ticks.
#[derive(Clone, Copy)]
pub struct Moment {
    pub numerator: u64,
    pub denominator: u64,
}

// Moments are compared by cross products, as fractions are, in numbers of twice the width.
impl Time for Moment {
    ghost time = { time_of };

    fn is_before(self, other: Moment) -> bool {
        u128::from(self.numerator) * u128::from(other.denominator)
            < u128::from(other.numerator) * u128::from(self.denominator)
    }
}

impl From<Fraction> for Moment {
    ghost from_gives = { λ t m. time_of m ≡ t };

    fn from(time: Fraction) -> Moment {
        Moment {
            numerator: u64::from(time.numerator),
            denominator: u64::from(time.denominator),
        }
    }
}

// A number of whole ticks.
impl From<u64> for Moment {
    ghost from_gives = { λ n m. time_of m ≡ whole n };

    fn from(ticks: u64) -> Moment {
        Moment {
            numerator: ticks,
            denominator: 1,
        }
    }
}

// A kind of time that is compared with moments.
pub trait End: Time + Into<Moment> {
    // the moment is the time that it was made of
    ghost keeps_time: { (x : Self) (m : Moment) → Self.converts x m → time_of m ≡ Self.time x };
}

impl End for Fraction {
    ghost keeps_time = { λ x m e. e };
}

impl End for u64 {
    ghost keeps_time = { λ x m e. e };
}

// Whether so many parts per tick may be asked of a station of that scale: 1 to 1,000,000,000 per
// second.
pub fn may_ask_parts(scale: u32, per_tick: u64) -> bool
    ensures value { result ≡ parts_allowed scale per_tick }
    ensures few { result ≡ true → per_tick * scale ≤ 1000000000 }
{
    scale != 0 && per_tick != 0 && per_tick <= 1_000_000_000 / u64::from(scale)
}
