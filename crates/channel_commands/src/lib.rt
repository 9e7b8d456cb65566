// The commands that are about the session and its channels, not about what a memory holds. Session and bank are lent apart, since a command
// that may not alter one of them says so by its `&`. No answer is ACK 0F; no `From` can say so, since banks know nothing of
// the wire.
#![tactic(auto)]

mod interface;
mod selection;

pub use interface::{exit, set_mode, test_alive};
pub use selection::{init_flash, reset};
