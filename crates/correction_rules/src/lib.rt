// What a switch does to the Correction field of a datagram that passes, W209-8 to W209-16: specs/ says it and what holds of it, proofs/ that it does. There is no code.
#![tactic(auto)]
