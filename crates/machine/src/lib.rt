// The station machine: the one interface through which a net sees its stations, and gearing over
// any machine.

#![tactic(auto)]

ghost use Rattle.std.specs.Prelude.{◌≡◌, length};
ghost use Rattle.semantics.specs.Machine.{Meaning, Sound};
ghost use Rattle.semantics.specs.Questions.{ask_station, ask_stance, ask_hearing};
ghost use Rattle.machine.specs.Stances.{told};

use book::record::Word;
use stance::StanceInfo;

pub mod gear;
pub mod stance;

// A machine answers by its meaning, and changes at no question. Stations are asked by their
// numbers, from 1. `None` stands for unknown: a station or a stance that is not there, or parts per
// tick out of range. Since each answer equals what is meant, only meanings whose numbers fit the
// types of the answers can be implemented; what else holds of them is shown by `sound`.
pub trait Machine {
    ghost meaning: { Self → Meaning };

    // What each implementation shows.
    ghost sound: { (x : Self) → Sound (meaning x) };

    // The number of stations.
    fn stations(&self) -> usize
        ensures { result ≡ length (meaning self.now) };

    // The ticks per second of a station.
    fn scale(&self, station: usize) -> Option<u32>
        ensures { result ≡ ask_station (meaning self.now) station (λ m. m.scale) };

    // The stance that a station opens in.
    fn opening(&self, station: usize) -> Option<u32>
        ensures { result ≡ ask_station (meaning self.now) station (λ m. m.opening) };

    // Phase, words sent, busy or quiet, lifetime and next move of a stance.
    fn stance(&self, station: usize, stance: u32) -> Option<StanceInfo>
        ensures { result ≡ ask_stance (meaning self.now) station stance told };

    // What a stance hears: for a word, and elapsed time in parts of a tick, the following stance or
    // nothing.
    fn hearing(
        &self,
        station: usize,
        stance: u32,
        word: Word,
        elapsed: u64,
        per_tick: u64,
    ) -> Option<Option<u32>>
        ensures { result ≡ ask_hearing (meaning self.now) station stance word.port word.value elapsed per_tick };
}
