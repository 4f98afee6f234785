// The bits of an image that an element has, and what a write does to each byte: in specs and proofs alone, without functions.
#![tactic(auto)]
