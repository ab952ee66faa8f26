// The desk: seats for open requests, and replies sorted to them. There is a module for the state and one for each call.
#![tactic(auto)]

pub mod capture;
pub mod clauses;
mod columns;
pub mod done;
pub mod hearing;
pub mod held;
pub mod key;
pub mod limits;
pub mod opening;
pub mod reply;
pub mod state;
mod step;
pub mod tally;
