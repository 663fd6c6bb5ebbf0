// Octets as words of 64 bits and back, W203-1 and W210-6: specs/ defines the conversion and the parts that are taken and copied by words; proofs/ has their laws. There is no code.
#![tactic(auto)]
