// The frame record as packed bytes; docs/LAYOUT.md has its layout. The bitmap and the lists stand with their crates.
#![tactic(auto)]

pub mod parts;
