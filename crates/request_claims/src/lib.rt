// No code: what holds of every list of one function's calls, resolved, by groups too (02 k), asked for and taken (02 g), in specs/, and its proofs;
// and what a patch resolved by groups costs at most (02 e).

#![tactic(auto)]
