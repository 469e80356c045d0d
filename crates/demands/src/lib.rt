// The three demands, sentence by sentence, each a theorem over the definitions (proofs/Demands.antt). There is no code at this
// layer.
#![tactic(auto)]
