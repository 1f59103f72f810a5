// No code: what holds of every list of one function's exported calls, as C and Rust make them: opened, resolved, by groups, asked for and taken, refused
// calls and stale takes included; from the contracts of the exported functions themselves.

#![tactic(auto)]
