// No code: what a job's bytes say, the answers to a job, which number is given when, and demand 3 of every job.

#![tactic(auto)]
