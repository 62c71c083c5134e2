// How the console writes what it answers: lines of calls and picks, values as numbers, and both panels as a drawing. No contract
// speaks of text; that a panel marks the references which the engaged modes steer to has one.
#![tactic(auto)]

pub mod answers;
pub mod numbers;
pub mod panel;
