// The records of a book's tree.

#![tactic(auto)]

ghost use Rattle.tree_records.specs.TreeRecords.{TreesHaveDifferentRecords};

// Of a book whose structure is right, the tree's records are different, and no more than the head tells.
pub fn trees_have_different_records()
    ensures { TreesHaveDifferentRecords }
{}
