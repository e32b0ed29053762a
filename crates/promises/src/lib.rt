// The demands as theorems: definitions and laws alone.
#![tactic(auto)]
