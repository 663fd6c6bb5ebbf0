// Which heads calls on a cleared table lead to, N-13: specs/ says that they are those in range, proofs/ that it is so. There is no code.
#![tactic(auto)]
