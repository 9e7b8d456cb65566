// The commands on the memories of the connected target: erase, read and write. Session and bank are lent apart, since a command that may not
// alter one of them says so by its `&`. No answer is ACK 0F; no `From` can say so, since banks know nothing of the wire.
#![tactic(auto)]

mod erasing;
mod ranges;
mod reading;
mod writing;

pub use erasing::{erase_all, erase_page};
pub use reading::read;
pub use writing::write;
