// Bits of 64-bit words: no code, only the definitions and laws that the layers above cite.
#![tactic(auto)]
