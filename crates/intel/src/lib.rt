// Intel's 4-level and 5-level paging as a definition, and the theorems that tie `translate` to it. No code.
#![tactic(auto)]
