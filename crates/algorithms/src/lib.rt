// The seven algorithms, six of document 001 and that of MCS, as definitions (specs/) and the theorems about them (proofs/). There is no function here.
#![tactic(auto)]
