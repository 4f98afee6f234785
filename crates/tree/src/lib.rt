// What an accepted description is, said as its tree, without the reader's states and steps: theorems alone, in specs and proofs.
#![tactic(auto)]
