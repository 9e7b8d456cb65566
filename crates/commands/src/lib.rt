// The commands of the interface: which there are, in which modes each is valid, and what its parameter says.
#![tactic(auto)]

mod command;
mod decode;
mod parameter;
mod validity;

pub use command::Command;
