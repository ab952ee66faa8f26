// The desk as a page of text: writing it, and reading it again.
#![tactic(auto)]

mod framed;
mod line;
pub mod read;
mod sofar;
mod store;
mod sum;
mod take;
pub mod write;
