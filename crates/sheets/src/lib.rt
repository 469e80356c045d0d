// What the bytes of a sheet and of a report mean: definitions (specs/) and the theorems on them (proofs/). There is no code at
// this layer.
#![tactic(auto)]
