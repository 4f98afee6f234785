// What is true of the records of every description that was read: theorems alone, in specs and proofs.
#![tactic(auto)]
