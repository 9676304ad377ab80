// No code: what the functions of whole layouts give at v bits, by what they give at w bits, v <= w, and the laws of it. The
// functions at 32 bits stand in the crate layouts32.
#![tactic(auto)]
