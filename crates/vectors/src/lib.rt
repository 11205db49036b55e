// Answers of the reference Rust as theorems about the definitions of format, each proved by computing it: proofs/Vectors.antt,
// which `oracle/run antt < oracle/vectors.txt` prints. No code.
#![tactic(auto)]
