// No code: document 01's machine, demand 3 as one statement, and its proof over the rules. The definitions are in specs/, what is shown of them in
// proofs/.

#![tactic(auto)]
