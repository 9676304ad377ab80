// No code: the definitions of compositions and their laws, at any width.
#![tactic(auto)]
