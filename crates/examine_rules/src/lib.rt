// No code: whether an edit list does what a patch asks from every start (02 m), one start that decides, and that every list of ours gets a yes.

#![tactic(auto)]
