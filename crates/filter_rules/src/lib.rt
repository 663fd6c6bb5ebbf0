// Reference-ID filters, B-1 to B-11: specs/ defines positions, adding, union, weight, publishing and the calls that check sizes, proofs/ has their laws. There is no code.
#![tactic(auto)]
