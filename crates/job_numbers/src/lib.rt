// No code: a job as data, as numbers and as bytes (02 a); what is written reads back, and the reverse.

#![tactic(auto)]
