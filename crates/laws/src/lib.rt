// Theory alone: general laws that the kit lacks. See specs/ for the definitions and proofs/ for the laws.
#![tactic(auto)]
