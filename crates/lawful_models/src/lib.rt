// Which model books are accepted.

#![tactic(auto)]

ghost use Rattle.lawful_models.specs.Accepted.{AcceptedModelsAreLawful};

// A model book is accepted exactly if its bytes are well formed and its tree is lawful.
pub fn accepted_models_are_lawful()
    ensures { AcceptedModelsAreLawful }
{}
