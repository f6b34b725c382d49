// Nets keep the rules: theorems about the definitions of nets and of runs. Each function carries one on its contract.

#![tactic(auto)]

ghost use Rattle.stepping.specs.AnyMachine.{ReachedAreKnown, MachineNetsStep};
ghost use Rattle.stepping.specs.Makings.{MakingsDecline};
ghost use Rattle.stepping.specs.Determined.{RunsAreDetermined};
ghost use Rattle.stepping.specs.Progress.{NetsProgress};
ghost use Rattle.stepping.specs.ModelNets.{ModelNetsStep};
ghost use Rattle.stepping.specs.AutomatonNets.{AutomatonNetsStep};

// A net over model stations steps by the model's rules: ages in seconds, and the book's own fractions.
pub fn model_nets_step()
    ensures { ModelNetsStep }
{}

// A net over automata, printed or not, steps by the automaton rules: clocks, guards, bounds, committed locations and
// resets.
pub fn automaton_nets_step()
    ensures { AutomatonNetsStep }
{}

// Over any sound machine every stance that a net reaches is known.
pub fn reached_are_known()
    ensures { ReachedAreKnown }
{}

// Over any sound machine a net obeys exactly what the rules of its stations' meanings allow, and declines a call exactly
// where a refusal's condition is the first of that call to hold.
pub fn machine_nets_step()
    ensures { MachineNetsStep }
{}

// A making is declined exactly where a refusal's condition is the first to hold, there, and succeeds where none does.
pub fn makings_decline()
    ensures { MakingsDecline }
{}

// By the model's rules, and by the automaton rules, one list of acts has at most one list of events and one end.
pub fn runs_are_determined()
    ensures { RunsAreDetermined }
{}

// From every reached state a step is allowed, or a delay that is not 0.
pub fn nets_progress()
    ensures { NetsProgress }
{}
