// The session of the interface: what it remembers, and the rules of all commands.
#![tactic(auto)]

mod answer;
mod session;

pub use answer::Answer;
pub use session::Session;
