// Every public call on a board as one definition, and the theorem that none touches a word past the lent frames. No code.
#![tactic(auto)]
