// C functions for the marking desk, on numbers and packed bytes (docs/LAYOUT.md): copy-on-write pages, both fault paths, and a board's start. The frames are lent as 64-bit words.
#![tactic(auto)]

pub mod faults;
pub mod start;
