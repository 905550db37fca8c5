// What is promised, as theorems over the crates below: see specs/.
#![tactic(auto)]
