// Gearing a whole machine, a factor for each station: definitions, and the theorem about them.

#![tactic(auto)]

ghost use Rattle.gearing.specs.Laws.{GearedMachinesAnswer};

// A geared machine is sound, and answers by the machine below.
pub fn geared_machines_answer()
    ensures { GearedMachinesAnswer }
{}
