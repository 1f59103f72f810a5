// No code: document 01's rules as definitions, the trial patches as equations, and which number is given when. The definitions are in specs/, what is
// shown of them in proofs/.

#![tactic(auto)]
