// No code: the definitions of layouts and of the member step, and their laws over numbers. The functions stand in layout.
#![tactic(auto)]
