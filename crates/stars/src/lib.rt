// The starred cases of document 01: specs/Stars.antt has the table, and proofs/Stars.antt shows that it holds.
#![tactic(auto)]
