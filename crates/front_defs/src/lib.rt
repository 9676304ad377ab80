// No code: the definitions of the part that is read from one of two buffers, and their laws over any width.
#![tactic(auto)]
