// What the program `codes` tries: drawn groups and lists of units, refused calls, and every list of every small group.
#![tactic(auto)]

pub mod drawn;
pub mod every;
