// No code: what casts give at v bits, by what they give at w bits, v <= w, and the laws of it. The functions at 32 bits stand in
// the crate casts32.
#![tactic(auto)]
