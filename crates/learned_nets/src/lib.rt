// What a net can learn of a machine is enough: a theorem about the definitions.

#![tactic(auto)]

ghost use Rattle.learned_nets.specs.Meant.{NetsAnswerAsMeant};

// Over any sound machine, blanks for unknown stances change no answer, no state and no telling.
pub fn nets_answer_as_meant()
    ensures { NetsAnswerAsMeant }
{}
