// Definitions and lemmas that two or more crates share, in specs/ and proofs/: no code.

#![tactic(auto)]
