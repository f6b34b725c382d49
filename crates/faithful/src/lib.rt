// Printing is faithful: the theorems that tie a printed automaton net to its model net.

#![tactic(auto)]

ghost use Rattle.faithful.specs.Theorems.{PrintingIsFaithful, PrintedIsLawful};
ghost use Rattle.faithful.specs.Mixed.{MixedNetsRunAlike, MixedNetsAnswerAlike};

// The net of a printed tree does as the model's: it is made alike, answers alike, tells alike, and runs alike.
pub fn printing_is_faithful()
    ensures { PrintingIsFaithful }
{}

// A printed tree has every property of a lawful automaton tree.
pub fn printed_is_lawful()
    ensures { PrintedIsLawful }
{}

// Whichever stations are replaced by their printed automata, the net's runs are those of the model.
pub fn mixed_nets_run_alike()
    ensures { MixedNetsRunAlike }
{}

// And its net is made, answers and tells as the model's does.
pub fn mixed_nets_answer_alike()
    ensures { MixedNetsAnswerAlike }
{}
