// Document 01's points P1 to P10: one statement about one list of cases, in specs and proofs. The program `shown_points` prints them.
#![tactic(auto)]
