// No code: the definitions of matches and shifts, and their laws, at any width and for any comparison of sequences.
#![tactic(auto)]
