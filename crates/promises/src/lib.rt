// What the two ends of a link promise together (demand 3), for any machine with the calls of a link: specs/Run.antt and specs/Promise.antt.
#![tactic(auto)]
