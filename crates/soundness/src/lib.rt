// Theorems only, in proofs/: the bench of every start is sound, every call keeps a sound bench sound, and the
// event acted on is the lowest bit of its word.
#![tactic(auto)]
