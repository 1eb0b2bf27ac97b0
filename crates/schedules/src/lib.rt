// No code: schedules, in which nodes take their rounds out of step (specs/Schedule.antt), the lock-step run that each
// of them comes to, and what demand 3 then says of it (proofs/).
#![tactic(auto)]
