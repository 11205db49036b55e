// Lists by index, the rule of a table, the least of a numbered family: definitions (specs/) and their laws (proofs/), no code.
#![tactic(auto)]
