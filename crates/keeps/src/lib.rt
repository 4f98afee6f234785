// What is true of the tables of every load that was accepted: theorems alone, in specs and proofs.
#![tactic(auto)]
