// Rows of bytes. There is no code here: the definition, and what holds of rows put together and cut, serve every crate above.
#![tactic(auto)]
