// Theorems only: what is demanded of the box, said over the definitions that the contracts of its calls cite.
#![tactic(auto)]
