// No code: the definitions of the greatest common divisor and of fractions, and their laws.
#![tactic(auto)]
