// No code: what conversions give at v bits, by what they give at w bits, v <= w, in every mode, and the laws of it. The functions
// at 32 bits stand in the crate converts32.
#![tactic(auto)]
