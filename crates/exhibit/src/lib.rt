// An accepted description, from its text to its listing, computed: in specs and proofs alone.
#![tactic(auto)]
