// No code: what the helpers, rounding words and trailing layouts give at v bits, by what they give at w bits, v <= w, and the
// laws of it. The functions at 32 bits stand in the crate numbers32.
#![tactic(auto)]
