// Theory alone: the three demands (rules 10.1 to 10.7) as theorems over the calls' promises. See specs/ and proofs/.
#![tactic(auto)]
