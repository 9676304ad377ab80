// No code: the definitions of all short member lists, and their laws.
#![tactic(auto)]
