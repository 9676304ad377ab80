// No code: the definitions of records of layouts, and their laws over any width.
#![tactic(auto)]
