// No code: the definitions of final padding and of the questions on padding, and their laws over any width.
#![tactic(auto)]
