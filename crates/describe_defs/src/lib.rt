// Definitions and laws of type descriptions, and of arrays and slices of a layout: there is no code here.
#![tactic(auto)]
