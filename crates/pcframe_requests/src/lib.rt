// What a line of pcframe asks for.
#![tactic(auto)]

mod parser;
mod request;

pub use parser::parse;
pub use request::Request;
