// Theorems about logs and the archive: no code. What a log is stands in specs/Log.antt, where its tags come from in specs/Handed.antt, and
// that the archive takes it and gives it back in proofs/Theorem.antt.
#![tactic(auto)]
