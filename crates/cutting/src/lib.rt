// Theory alone: what a dissection is, what it earns, and the rule that finds the best. See specs/ and proofs/.
#![tactic(auto)]
