// No code: the definitions of recorded answers, lines of decimal numbers, and their laws.
#![tactic(auto)]
