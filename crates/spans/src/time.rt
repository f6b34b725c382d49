// Kinds of time, and their order.
ghost use Rattle.std.specs.Prelude.{◌≡◌};
ghost use Rattle.semantics.specs.Times.{before, at_most, itself, whole};
ghost use Rattle.book.specs.declared.record.Fraction.{Fraction as Moment};

use book::record::Fraction;

// A kind of time that the ends of a window are given in. It is no `PartialOrd` of std: 0/0 is at most
// each time, and each is at most 0/0, so `==` would not be transitive.
pub trait Time: Copy {
    // the fraction that it stands for
    ghost time: { Self → Moment };

    // Whether it is earlier than the other.
    fn is_before(self, other: Self) -> bool
        ensures { result ≡ before (time self) (time other) };

    // Whether it is no later than the other.
    fn is_at_most(self, other: Self) -> bool
        ensures { result ≡ at_most (time self) (time other) }
    {
        !other.is_before(self)
    }
}

// Fractions are compared by cross products, so 1/2 and 2/4 are one time.
impl Time for Fraction {
    ghost time = { itself };

    fn is_before(self, other: Fraction) -> bool {
        u64::from(self.numerator) * u64::from(other.denominator)
            < u64::from(other.numerator) * u64::from(self.denominator)
    }
}

// A number of whole ticks.
impl Time for u64 {
    ghost time = { whole };

    fn is_before(self, other: u64) -> bool {
        self < other
    }
}
