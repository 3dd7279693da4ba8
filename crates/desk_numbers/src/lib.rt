// C functions for the marking desk on numbers alone (docs/LAYOUT.md): addresses, rounding, entries, flags and indices.
#![tactic(auto)]

pub mod addresses;
pub mod entries;
