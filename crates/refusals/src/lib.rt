// Which refusals a load can answer, and what it then leaves: theorems alone, in specs and proofs.
#![tactic(auto)]
