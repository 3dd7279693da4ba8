// The release paper: demand 3 as one theorem about lists of calls. No code.
#![tactic(auto)]
