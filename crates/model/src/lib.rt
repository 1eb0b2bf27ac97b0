// No code: the abstract engine, and why its honest nodes agree. All of it is a matter of proofs/.
#![tactic(auto)]
