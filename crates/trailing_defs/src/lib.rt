// No code: the definitions of trailing layouts and their laws over numbers. The functions stand in the crate trailing.
#![tactic(auto)]
