// No code: what follows from the rules and the machine: with one kept eviction the rules are 01's, as many saves as reloads, and what the claims on
// slots shut out.

#![tactic(auto)]
