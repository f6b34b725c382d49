// Examples, worked on the bytes of whole books.

#![tactic(auto)]

ghost use Rattle.worked_examples.specs.Worked.{WorkedExamples};

// The check, scales, printing and sessions give on these books what is stated.
pub fn examples_work_out()
    ensures { WorkedExamples }
{}
