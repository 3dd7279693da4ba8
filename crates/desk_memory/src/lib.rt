// C functions for the marking desk, on numbers and packed bytes (docs/LAYOUT.md): the frame allocator, the mapper. The frames are lent as 64-bit words.
#![tactic(auto)]

pub mod frames;
pub mod page_tables;
