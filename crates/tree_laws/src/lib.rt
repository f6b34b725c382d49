// What the check of a book says of its tree, for both kinds of book.

#![tactic(auto)]

ghost use Rattle.tree_laws.specs.Laws.{LawsOfTrees};

// The check of a book answers the kind of its structure, and its tests of places and paths are those of the tree.
pub fn the_laws_hold()
    ensures { LawsOfTrees }
{}
