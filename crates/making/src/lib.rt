// What a net is made from: a machine that is geared to its net scale, and the states that its
// stations open in, with the events that tell of them. Places count from 0: place i is station
// i + 1.

#![tactic(auto)]

ghost use Rattle.std.specs.Prelude.{◌≡◌, ℕ, ◌+◌, ◌^◌, ◌<◌, ◌≤◌, ◌++◌, length, drop, Some, None, MatchResult};
ghost use Rattle.book.specs.Refusals.{refused};
ghost use Rattle.book.specs.declared.refusal.Fault.TheVariants.{Scale};
ghost use Rattle.semantics.specs.Machine.{meaning_at, net_scale, factor, geared};
ghost use Rattle.semantics.specs.Calls.{first_bad, misfit, created};
ghost use Rattle.gearing.specs.Gearing.{wanted, geared_by};
ghost use Rattle.scales.specs.Limited.{limited};
ghost use Rattle.making.specs.Opening.{opened_table};

use book::event::{Event, EventKind};
use book::refusal::{Fault, Refusal};
use delivery::ask::stance_of;
use machine::Machine;
use machine::gear::Gear;
use scales::scale::scale_of;
use semantics::state::StationState;
use std::array;

// The ticks per second of the station at a place.
fn scale_at<M: Machine>(machine: &M, place: usize) -> u32
    requires { place + 1 < 2 ^ 64 }
    ensures value { result ≡ (meaning_at (M.Machine.meaning machine.now) place).scale }
    ensures some { 1 ≤ result }
{
    machine.scale(place + 1).unwrap_or(1)
}

// The stance that the station at a place opens in.
fn opening_at<M: Machine>(machine: &M, place: usize) -> u32
    requires { place + 1 < 2 ^ 64 }
    ensures { result ≡ (meaning_at (M.Machine.meaning machine.now) place).opening }
{
    machine.opening(place + 1).unwrap_or(0)
}

// The net scale, or nothing where it is over the limit of scales.
fn common_scale<M: Machine>(machine: &M) -> Option<u32>
    ensures { result ≡ limited (net_scale (M.Machine.meaning machine.now)) }
{
    // Stays: a net uses no heap, and a machine has at most 16 stations.
    let scales: [u32; 16] = array::from_fn(|place| scale_at(machine, place));
    scale_of(&scales[..machine.stations()])
}

// The factor that gears each station to that scale.
fn factors_to<M: Machine>(machine: &M, scale: u32) -> [u32; 16]
    ensures { (i : ℕ) → i < length (M.Machine.meaning machine.now) → wanted result i ≡ factor scale (meaning_at (M.Machine.meaning machine.now) i) }
{
    array::from_fn(|place| scale / scale_at(machine, place))
}

// The machine geared to its net scale, or the refusal at the first station that cannot be.
pub fn gear_to_net_scale<M: Machine + Drop>(machine: M) -> Result<Gear<M>, Refusal>
    ensures { MatchResult result (λ g. (first_bad (misfit (net_scale (M.Machine.meaning machine))) 1 (M.Machine.meaning machine) ≡ None) × (g.below ≡ machine) × (geared_by (M.Machine.meaning g.below) g.factors ≡ geared (M.Machine.meaning machine))) (λ e. (first_bad (misfit (net_scale (M.Machine.meaning machine))) 1 (M.Machine.meaning machine) ≡ Some e.place) × (e ≡ refused Scale e.place)) }
{
    let scale = common_scale(&machine).ok_or(Fault::Scale.at(1))?;
    let factors = factors_to(&machine, scale);
    Gear::new(machine, factors)
}

// The state that each station opens in.
pub fn opening_states<M: Machine>(machine: &M) -> [StationState; 16]
    ensures { result ≡ opened_table (M.Machine.meaning machine.now) }
{
    array::from_fn(|place| StationState {
        stance: opening_at(machine, place),
        elapsed: 0,
    })
}

// The events that tell of each station's opening, in the first slots.
pub fn tell_openings<M: Machine>(machine: &M, events: &mut [Event])
    requires { length (M.Machine.meaning machine.now) ≤ length events.old }
    ensures { events.new ≡ created 1 (M.Machine.meaning machine.now) ++ drop (length (M.Machine.meaning machine.now)) events.old }
{
    let slots = &mut events[..machine.stations()];
    for (place, event) in slots.iter_mut().enumerate() {
        let stance = opening_at(machine, place);
        *event = Event {
            kind: EventKind::Created,
            station: (place + 1) as u8,
            port: 0,
            value: stance_of(machine, place, stance).phase,
        };
    }
}
