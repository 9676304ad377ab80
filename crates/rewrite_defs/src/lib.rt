// Definitions and laws of descriptions rewritten: there is no code here.
#![tactic(auto)]
