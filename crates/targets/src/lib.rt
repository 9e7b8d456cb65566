// Targets: motor controllers over any landing rule, each a bank of one channel.
#![tactic(auto)]

mod bank_of_one;
mod memory;
mod target;

pub use target::Target;
