// What model nets and automaton nets mean: definitions, and the theorems about them.

#![tactic(auto)]

ghost use Rattle.semantics.specs.Membership.{Membership};
ghost use Rattle.semantics.specs.Laws.{ScalesAreLeast, StanceNumbers, MeaningsAreSound, GearingKeepsSound};
ghost use Rattle.semantics.specs.OneTime.{EqualFractionsAreOneTime};
ghost use Rattle.semantics.specs.Devs.{ModelsAreDevs};
ghost use Rattle.semantics.specs.Relay.{RelayWorks, RelayRuns, RelayIsLawful};
ghost use Rattle.semantics.specs.RelayBook.{RelayReads};
ghost use Rattle.semantics.specs.Examples.{ExamplesWork};

pub mod state;

// The tests of times, windows and words decide what they say in plain terms.
pub fn tests_decide()
    ensures { Membership }
{}

// No test tells equal fractions apart.
pub fn equal_fractions_are_one_time()
    ensures { EqualFractionsAreOneTime }
{}

// A scale is the least common multiple of its denominators.
pub fn scales_are_least()
    ensures { ScalesAreLeast }
{}

// A stance's number and its phase and words sent give each other back.
pub fn stance_numbers()
    ensures { StanceNumbers }
{}

// The meanings of lawful model nets and of lawful automaton nets are sound.
pub fn meanings_are_sound()
    ensures { MeaningsAreSound }
{}

// Gearing keeps soundness, and gears every station to the net scale.
pub fn gearing_keeps_sound()
    ensures { GearingKeepsSound }
{}

// A station by the model's rules is the atomic DEVS of its phases.
pub fn models_are_devs()
    ensures { ModelsAreDevs }
{}

// The relay's session, on its model and on its print.
pub fn relay_works()
    ensures { RelayWorks }
{}

// A run of the relay with fractional delays, by the model's rules and by the automaton rules.
pub fn relay_runs()
    ensures { RelayRuns }
{}

// The relay and its print are lawful.
pub fn relay_is_lawful()
    ensures { RelayIsLawful }
{}

// The relay's book, read, printed, and read back.
pub fn relay_reads()
    ensures { RelayReads }
{}

// Scales, the window that counts, two stations with unequal scales, and refusals.
pub fn examples_work()
    ensures { ExamplesWork }
{}
