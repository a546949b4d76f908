// Theorems about the conductor: no code. The statement stands in specs/Claims.antt, its proofs end in proofs/Theorems.antt and proofs/OnTables.antt.
#![tactic(auto)]
