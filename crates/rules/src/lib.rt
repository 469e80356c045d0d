// What each command answers and does, what a run is, and which keys are known: definitions (specs/) and the theorems on
// them (proofs/). There is no code at this layer.
#![tactic(auto)]
