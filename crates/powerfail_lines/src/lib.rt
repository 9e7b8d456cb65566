// The lines of powerfail: what is asked for, and what is answered.
#![tactic(auto)]

mod outcome;
mod parser;
mod request;

pub use outcome::Outcome;
pub use parser::parse;
pub use request::Request;
