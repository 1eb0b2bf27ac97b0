// Reading and writing undo each other: theorems on the definitions of crate message, no code.
#![tactic(auto)]
