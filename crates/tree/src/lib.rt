// The theory of the table tree: which frames tables and pages reach, and what a mapping or an unmapping leaves as it was. No code.
#![tactic(auto)]
