// Times of day, days, net times and running time.
#![tactic(auto)]

pub mod clock;
pub mod day;
pub mod net;
pub mod running;
mod signed;
