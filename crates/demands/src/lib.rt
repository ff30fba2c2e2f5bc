// The demands of the code: specs/ and proofs/ only.
#![tactic(auto)]
