// Which automaton books are accepted.

#![tactic(auto)]

ghost use Rattle.lawful_automata.specs.Accepted.{AcceptedAutomataAreLawful};

// An automaton book is accepted exactly if its structure is right and its tree is lawful.
pub fn accepted_automata_are_lawful()
    ensures { AcceptedAutomataAreLawful }
{}
