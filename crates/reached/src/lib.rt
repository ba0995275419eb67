// Runs of the bus that reach the numbers of demand 3: a crate of theorems alone (specs/Reached.antt says what is reached, proofs/Slowest.antt builds
// the run, proofs/Reached.antt has the theorems), and the worked cases of the bus (specs/Cases.antt), by computing.

#![tactic(auto)]
