// A net's words and steps on the states of its stations, over any machine.

#![tactic(auto)]

ghost use Rattle.std.specs.Prelude.{◌≡◌, ℕ, ◌≤◌, length};
ghost use Rattle.semantics.specs.Calls.{bad_paths, answer_call, step as step_call, word as word_call};
ghost use Rattle.delivery.specs.Known.{known_net};
ghost use Rattle.calls.specs.Slots.{counted, written, state_of, turn, due_among, opening};

use book::event::Event;
use book::record::Word;
use book::refusal::{Fault, Refusal};
use book::term::{Order, Path};
use delivery::rules::Rules;
use machine::Machine;
use semantics::state::StationState;

// The first bad path, by its position from 1.
pub fn first_bad_path(stations: usize, paths: &[Path]) -> Option<usize>
    ensures { result ≡ bad_paths stations paths.now }
{
    let place = paths.iter().position(|path| path.has_wrong_ends(stations))?;
    Some(place + 1)
}

// What a word and a step test first: the paths, and then the room for their events.
fn test_paths(stations: usize, paths: &[Path], slots: usize) -> Result<(), Refusal>
    ensures { result ≡ opening stations paths.now slots }
{
    if let Some(place) = first_bad_path(stations, paths) {
        return Err(Fault::Paths.at(place));
    }
    if (slots as u128) < 2 + 2 * paths.len() as u128 {
        return Err(Fault::Room.at(0));
    }
    Ok(())
}

// The station that a step acts for: the lowest busy one, else the lowest due one.
fn next_to_act<M: Machine>(rules: &Rules<M>, states: &[StationState]) -> Option<usize>
    ensures { let net = known_net M.Machine.meaning rules.now in result ≡ turn net.stations net.parts states.now (length states.now) }
{
    let busy = rules.lowest_busy(states);
    busy.or_else(|| rules.lowest_due(states))
}

// A step: the events go into the first slots, and the answer is their number. The total of all waits
// is as it was, whatever it is.
pub fn step<M: Machine>(
    rules: &Rules<M>,
    paths: &[Path],
    states: &mut [StationState],
    events: &mut [Event],
) -> Result<usize, Refusal>
    requires { length states.old ≡ length (M.Machine.meaning rules.now.machine) }
    ensures answer { (total : ℕ) → result ≡ counted (answer_call (known_net M.Machine.meaning rules.now) paths.now (step_call (length events.old)) (state_of states.old total)).answer }
    ensures states_left { (total : ℕ) → state_of states.new total ≡ (answer_call (known_net M.Machine.meaning rules.now) paths.now (step_call (length events.old)) (state_of states.old total)).state }
    ensures slots { (total : ℕ) → events.new ≡ written (answer_call (known_net M.Machine.meaning rules.now) paths.now (step_call (length events.old)) (state_of states.old total)).answer events.old }
{
    test_paths(states.len(), paths, events.len())?;
    let place = next_to_act(rules, states).ok_or(Fault::Idle.at(0))?;
    Ok(rules.act(paths, place, states, events))
}

// Under step first a due station keeps words out.
fn due_before_words<M: Machine>(rules: &Rules<M>, states: &[StationState]) -> Option<usize>
    ensures { let net = known_net M.Machine.meaning rules.now in result ≡ due_among net.stations net.order net.parts states.now (length states.now) }
{
    match rules.order {
        Order::StepFirst => rules.lowest_due(states),
        Order::WordFirst => None,
    }
}

// A word from outside: the events go into the first slots, and the answer is their number. The total
// of all waits is as it was, whatever it is.
pub fn word<M: Machine>(
    rules: &Rules<M>,
    paths: &[Path],
    word: Word,
    states: &mut [StationState],
    events: &mut [Event],
) -> Result<usize, Refusal>
    requires { length states.old ≡ length (M.Machine.meaning rules.now.machine) }
    ensures answer { (total : ℕ) → result ≡ counted (answer_call (known_net M.Machine.meaning rules.now) paths.now (word_call word.port word.value (length events.old)) (state_of states.old total)).answer }
    ensures states_left { (total : ℕ) → state_of states.new total ≡ (answer_call (known_net M.Machine.meaning rules.now) paths.now (word_call word.port word.value (length events.old)) (state_of states.old total)).state }
    ensures slots { (total : ℕ) → events.new ≡ written (answer_call (known_net M.Machine.meaning rules.now) paths.now (word_call word.port word.value (length events.old)) (state_of states.old total)).answer events.old }
{
    test_paths(states.len(), paths, events.len())?;
    if let Some(place) = rules.lowest_busy(states) {
        return Err(Fault::Busy.at(place + 1));
    }
    if let Some(place) = due_before_words(rules, states) {
        return Err(Fault::Due.at(place + 1));
    }
    Ok(rules.deliver(paths, 0, word, states, events))
}
