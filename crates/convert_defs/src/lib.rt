// No code: the definitions of conversions and their laws, at any width and for any comparison of sequences.
#![tactic(auto)]
