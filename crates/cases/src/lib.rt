// Document 01's key cases K1 to K12, and the case of document 02's slip 2, from the definitions. No code.
#![tactic(auto)]
