// Rules that every record of a book keeps.

#![tactic(auto)]

ghost use Rattle.kept_rules.specs.Kept.{KeptWhereNoneIsFound};

// There is no smallest record that breaks a rule exactly if every record keeps it.
pub fn kept_where_none_is_found()
    ensures { KeptWhereNoneIsFound }
{}
