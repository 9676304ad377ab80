// No code: laws of the papers that speak of more than one call, at 32 bits. Each is an instance of the law at any width.
#![tactic(auto)]
