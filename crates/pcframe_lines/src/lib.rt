// What pcframe answers to a line: `p` packs a command, `u` takes a reply apart.
#![tactic(auto)]

mod acks;
mod lines;

pub use lines::answer;
