// What is printed reads back.

#![tactic(auto)]

ghost use Rattle.printing.specs.ReadsBack.{PrintedFits, PrintedReadsBack};
ghost use Rattle.printing.specs.Renumbered.{NumbersDoNotMatter};

// The records that a lawful model net is printed as fit an automaton book.
pub fn printed_fits()
    ensures { PrintedFits }
{}

// The printed bytes, read as a book, give the printed tree.
pub fn printed_reads_back()
    ensures { PrintedReadsBack }
{}

// Model books that differ only in their record numbers print the same bytes.
pub fn numbers_do_not_matter()
    ensures { NumbersDoNotMatter }
{}
