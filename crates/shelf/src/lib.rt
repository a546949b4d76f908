// What is on a shelf: logs laid out for the archive, as definitions and theorems, with no code. The two layouts are in specs/Planes.antt,
// the calls in specs/Calls.antt, that doing both returns the start in proofs/Returns.antt. The code is in archive.
#![tactic(auto)]
