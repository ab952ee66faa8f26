// How a case is written: the words of its line, and the printed answers. For the programs that answer cases.
#![tactic(auto)]

pub mod line;
pub mod print;
