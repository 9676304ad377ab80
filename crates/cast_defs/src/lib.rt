// No code: the definitions of casts and of exact counts, and their laws over any width.
#![tactic(auto)]
