// Books that the check accepts: what is known of their trees.

#![tactic(auto)]
