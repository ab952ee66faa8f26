// Frames: reading and writing each kind, with a module for each.
#![tactic(auto)]

pub mod check;
pub mod dynamic;
mod fields;
mod head;
mod record;
pub mod refusals;
pub mod reply;
pub mod request;
mod runs;
mod spoiled;
pub mod timing;
