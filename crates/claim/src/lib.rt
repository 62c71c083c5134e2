// The claim over any list of calls, and the bench sheet: definitions and theorems. The crate has no code of
// its own; `replay` ties the claim to the code.
#![tactic(auto)]
