// A net is made.
ghost use Rattle.std.specs.Prelude.{◌≡◌, length, IfOk};
ghost use Rattle.semantics.specs.Calls.{make as making_of};
ghost use Rattle.calls.specs.Slots.{counted, written};
ghost use Rattle.net.specs.Nets.{count_of, count_built, StandsFor};

use super::held::Net;
use book::event::Event;
use book::refusal::{Fault, Refusal};
use book::term::{Order, Path};
use calls::first_bad_path;
use delivery::rules::{Parts, Rules};
use machine::Machine;
use making::{gear_to_net_scale, opening_states, tell_openings};

// Builds a net, with the events of its stations' openings in the first slots.
fn build<M: Machine + Drop>(
    machine: M,
    paths: &[Path],
    order: Order,
    parts: u64,
    events: &mut [Event],
) -> Result<Net<M>, Refusal>
    ensures answer { count_built M.Machine.meaning result ≡ counted (making_of (M.Machine.meaning machine) paths.now order parts (length events.old)).answer }
    ensures slots { events.new ≡ written (making_of (M.Machine.meaning machine) paths.now order parts (length events.old)).answer events.old }
    ensures net { IfOk result (λ x. StandsFor M.Machine.meaning machine (making_of (M.Machine.meaning machine) paths.now order parts (length events.old)) x) }
{
    let machine = gear_to_net_scale(machine)?;
    let stations = machine.stations();
    if let Some(place) = first_bad_path(stations, paths) {
        return Err(Fault::Paths.at(place));
    }
    if events.len() < stations {
        return Err(Fault::Room.at(0));
    }
    let parts = Parts::try_from(parts)?;
    tell_openings(&machine, events);
    let table = opening_states(&machine);
    Ok(Net {
        rules: Rules {
            machine,
            order,
            parts,
        },
        total: 0,
        table,
    })
}

impl<M: Machine + Drop> Net<M> {
    // Makes a net over a machine. The paths are only checked: each word and step is given its own. The
    // events go into the first slots, and their number is told with the net.
    pub fn make(
        machine: M,
        paths: &[Path],
        order: Order,
        parts: u64,
        events: &mut [Event],
    ) -> Result<(Net<M>, usize), Refusal>
        ensures answer { count_of result ≡ counted (making_of (M.Machine.meaning machine) paths.now order parts (length events.old)).answer }
        ensures slots { events.new ≡ written (making_of (M.Machine.meaning machine) paths.now order parts (length events.old)).answer events.old }
        ensures net { IfOk result (λ x. StandsFor M.Machine.meaning machine (making_of (M.Machine.meaning machine) paths.now order parts (length events.old)) x.0) }
    {
        let net = build(machine, paths, order, parts, events)?;
        let told = net.stations();
        Ok((net, told))
    }
}
