// A machine in finer ticks: its scales and lifetimes are those of the machine below, times a factor
// for each station.
ghost use Rattle.std.specs.Prelude.{◌≡◌, ◌-◌, ◌*◌, ◌^◌, ◌<◌, ◌≤◌, IfSome, IfOk, Some, None, MatchResult};
ghost use Rattle.book.specs.Refusals.{refused};
ghost use Rattle.book.specs.declared.refusal.Fault.TheVariants.{Scale};
ghost use Rattle.gearing.specs.Gearing.{misfits, in_use, wanted, geared_by, as_wanted, misfit_at, lowest_misfit};
ghost use Rattle.gearing.proofs.Gearing.{geared_sound};
ghost use Rattle.machine.specs.Stances.{finer};

use super::Machine;
use super::stance::StanceInfo;
use book::record::Word;
use book::refusal::{Fault, Refusal};

#[derive(Drop)]
pub struct Gear<M: Machine> {
    below: M,
    // Stays: gearing uses no heap, and a machine has at most 16 stations.
    factors: [u32; 16],
}

// The factor wanted for a station; none is wanted past the table.
fn wanted_factor(factors: &[u32; 16], station: usize) -> u32
    ensures { result ≡ wanted factors.now (station - 1) }
{
    let place = station.saturating_sub(1);
    if place < 16 { factors[place] } else { 0 }
}

// A factor does not fit a scale.
fn does_not_fit(scale: u32, factor: u32) -> bool
    ensures { result ≡ misfits scale factor }
{
    factor == 0 || scale as u64 * factor as u64 > 1_000_000
}

// The factor in use at a station of that scale: the wanted one, or 1 where that does not fit.
fn factor_in_use(factors: &[u32; 16], station: usize, scale: u32) -> u32
    ensures { result ≡ in_use scale (wanted factors.now (station - 1)) }
{
    let factor = wanted_factor(factors, station);
    if does_not_fit(scale, factor) {
        1
    } else {
        factor
    }
}

// A stance with its lifetime in ticks `factor` times as fine.
fn in_finer_ticks(below: StanceInfo, factor: u32) -> StanceInfo
    requires { IfSome below.lifetime (λ l. l * factor < 2 ^ 64) }
    ensures { result ≡ finer factor below }
{
    StanceInfo {
        lifetime: below.lifetime.map(|ticks| ticks * factor as u64),
        ..below
    }
}

impl<M: Machine> Machine for Gear<M> {
    ghost meaning = { λ g. geared_by (M.Machine.meaning g.below) g.factors };

    ghost sound = { λ g. geared_sound (M.Machine.meaning g.below) g.factors (M.Machine.sound g.below) };

    fn stations(&self) -> usize {
        self.below.stations()
    }

    fn scale(&self, station: usize) -> Option<u32> {
        let scale = self.below.scale(station)?;
        Some(scale * factor_in_use(&self.factors, station, scale))
    }

    fn opening(&self, station: usize) -> Option<u32> {
        self.below.opening(station)
    }

    fn stance(&self, station: usize, stance: u32) -> Option<StanceInfo> {
        let scale = self.below.scale(station)?;
        let below = self.below.stance(station, stance)?;
        let factor = factor_in_use(&self.factors, station, scale);
        Some(in_finer_ticks(below, factor))
    }

    fn hearing(
        &self,
        station: usize,
        stance: u32,
        word: Word,
        elapsed: u64,
        per_tick: u64,
    ) -> Option<Option<u32>> {
        let scale = self.below.scale(station)?;
        if per_tick > 1_000_000_000 {
            return None;
        }
        let factor = factor_in_use(&self.factors, station, scale);
        self.below
            .hearing(station, stance, word, elapsed, per_tick * factor as u64)
    }
}

// The station at a place cannot be geared as wanted.
fn misfit_at<M: Machine>(below: &M, factors: &[u32; 16], place: usize) -> bool
    requires { place < 16 }
    ensures { result ≡ misfit_at (M.Machine.meaning below.now) factors.now place }
{
    does_not_fit(below.scale(place + 1).unwrap_or(1), factors[place])
}

// The lowest station that cannot.
fn lowest_misfit<M: Machine>(below: &M, factors: &[u32; 16]) -> Option<usize>
    ensures { result ≡ lowest_misfit (M.Machine.meaning below.now) factors.now }
{
    let place = (0..below.stations()).find(|place| misfit_at(below, factors, *place))?;
    Some(place + 1)
}

impl<M: Machine + Drop> Gear<M> {
    // Gears each station by its factor, and refuses at the lowest station whose factor does not fit.
    // Of a machine so made, every factor in use is the wanted one.
    // Stays: the table of factors, as the field.
    pub fn new(below: M, factors: [u32; 16]) -> Result<Gear<M>, Refusal>
        ensures value { MatchResult result (λ g. (lowest_misfit (M.Machine.meaning below) factors ≡ None) × (g.below ≡ below) × (g.factors ≡ factors)) (λ e. (lowest_misfit (M.Machine.meaning below) factors ≡ Some e.place) × (e ≡ refused Scale e.place)) }
        ensures as_asked { IfOk result (λ g. geared_by (M.Machine.meaning g.below) g.factors ≡ as_wanted (M.Machine.meaning below) factors) }
    {
        if let Some(place) = lowest_misfit(&below, &factors) {
            return Err(Fault::Scale.at(place));
        }
        Ok(Gear { below, factors })
    }
}
