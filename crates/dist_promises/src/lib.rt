// Demand 3 for distribution: the promise (crate promises) of the pair's own steps. Statement: specs/Distribution.antt; theorem: proofs/Theorem.antt.
#![tactic(auto)]
