// No code: refusal tables, powers of two and rounding, the definitions of the helpers, and their laws, at any width.
#![tactic(auto)]
