// The responder's store of saved timestamps, R-1 to R-3: specs/ defines the row, its octets and what becomes of them, proofs/ has the laws. There is no code.
#![tactic(auto)]
