// No code: a patch resolved by its independent groups (02 k), right as a resolved patch is; in a frame too.

#![tactic(auto)]
