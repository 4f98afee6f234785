// A refusal of the text stage depends on nothing after its token: theorems alone, in specs and proofs.
#![tactic(auto)]
