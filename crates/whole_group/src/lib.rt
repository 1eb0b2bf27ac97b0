// No code: that a crew whose group is all nodes works as document 01 says (specs/Statement.antt), and the proof
// (proofs/WholeGroup.antt).
#![tactic(auto)]
