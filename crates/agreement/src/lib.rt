// No code: demand 3 as one statement on lists of calls (specs/Statement.antt), its proof, and the laws of taking and
// asking (proofs/).
#![tactic(auto)]
