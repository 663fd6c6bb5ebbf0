// The refusals of the calls on one datagram or one filter, N-27 and N-28: specs/ says what holds of them, proofs/ that it does. There is no code.
#![tactic(auto)]
