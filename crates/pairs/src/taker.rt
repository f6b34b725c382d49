// Edges with what they take, and those of a list that take a word together with another.
ghost use Rattle.std.specs.Prelude.{◌≡◌};
ghost use Rattle.visits.specs.Smallest.{smallest};
ghost use Rattle.pairs.specs.Pairs.{both_take, meets, some_meets, meeting};

use spans::hearing::Hearing;
use spans::time::Time;

// An edge by its record, and what it takes; nothing unless it hears.
#[derive(Clone, Copy)]
pub struct Taker<T> {
    pub edge: u16,
    pub hearing: Option<Hearing<T>>,
}

// Whether both take some word at some moment.
fn both_take<T: Time>(x: Option<Hearing<T>>, y: Option<Hearing<T>>) -> bool
    ensures { result ≡ both_take T.Time.time x y }
{
    x.zip(y).is_some_and(|(one, other)| one.shares_word(other))
}

impl<T: Time> Taker<T> {
    // Whether the other is another edge, and both take some word at some moment.
    pub(crate) fn meets(self, other: Taker<T>) -> bool
        ensures { result ≡ meets T.Time.time self other }
    {
        other.edge != self.edge && both_take(self.hearing, other.hearing)
    }

    // Whether it meets one of these.
    fn meets_one(self, takers: &[Taker<T>]) -> bool
        ensures { result ≡ some_meets T.Time.time self takers.now }
    {
        takers.iter().any(|other| self.meets(*other))
    }
}

// The smallest edge of the list that takes a word at a moment at which another of it takes it.
pub fn first_meeting<T: Time>(takers: &[Taker<T>]) -> Option<u16>
    ensures { result ≡ smallest (meeting T.Time.time takers.now takers.now) }
{
    takers
        .iter()
        .filter_map(|taker| taker.meets_one(takers).then_some(taker.edge))
        .min()
}
