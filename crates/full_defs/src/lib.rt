// No code: the definitions of the full comparison of sizes and of the normal form, and their laws, at any width.
#![tactic(auto)]
