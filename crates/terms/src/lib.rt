// What a term is, and what working out means: definitions (specs/) and their laws (proofs/). There is no code at this layer.
#![tactic(auto)]
