// What a net goes by in all its calls.
ghost use Rattle.std.specs.Prelude.{◌≡◌, ◌<◌, ◌≤◌, ◌⊎◌, MatchResult};
ghost use Rattle.book.specs.Refusals.{refused};
ghost use Rattle.book.specs.declared.refusal.Fault.TheVariants.{Parts as PartsFault};

use book::refusal::{Fault, Refusal};
use book::term::Order;
use machine::Machine;

// The parts of a net tick: 1 to 1,000.
#[derive(Clone, Copy)]
pub struct Parts {
    pub number: u64,
    ghost some: { 1 ≤ number },
    ghost few: { number ≤ 1000 },
}

impl TryFrom<u64> for Parts {
    type Error = Refusal;

    ghost try_from_gives = { λ n r. MatchResult r (λ p. p.number ≡ n) (λ e. ((n ≡ 0) ⊎ (1000 < n)) × (e ≡ refused PartsFault 0)) };

    fn try_from(number: u64) -> Result<Parts, Refusal> {
        if number == 0 || number > 1000 {
            return Err(Fault::Parts.at(0));
        }
        Ok(Parts { number })
    }
}

// The machine of its stations, its order, and the parts of its tick. The states of the stations stand
// beside it.
#[derive(Drop)]
pub struct Rules<M: Machine> {
    pub machine: M,
    pub order: Order,
    pub parts: Parts,
}
