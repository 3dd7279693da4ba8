// C functions for the marking desk, on numbers and packed bytes (docs/LAYOUT.md): vmalloc and mmap. The frames are lent as 64-bit words.
#![tactic(auto)]

pub mod kernel;
pub mod user;
