// No code: the definitions of the padding over a list of counts, and their laws over any width.
#![tactic(auto)]
