// The starred exercises of document 01 as a table (specs/), proved together over the definitions (proofs/). There is no code
// at this layer.
#![tactic(auto)]
