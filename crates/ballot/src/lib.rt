// No code: the three rules of document 01 as definitions (specs/) and their laws (proofs/).
#![tactic(auto)]
