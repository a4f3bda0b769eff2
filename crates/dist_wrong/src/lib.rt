// Wrong machines, each distribution with one thing changed, and for each a run by which it breaks demand 3 (crate promises).
#![tactic(auto)]
