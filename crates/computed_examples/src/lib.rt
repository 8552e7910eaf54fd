// Calls that the prover computes from the definitions (proofs/). There is no function here.
#![tactic(auto)]
