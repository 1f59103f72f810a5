// No code: what holds of every whole job, however many words are lent for its answer, plain and by groups: demand 3, which number is given when
// (16 among them), and that 17 does not come where L is enough (02 j). It is what the library for C and Rust promises of an answer.

#![tactic(auto)]
