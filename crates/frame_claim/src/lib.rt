// No code: every list of calls in a frame (02 l), those by groups too, from its opening on, is answered as the rules say.

#![tactic(auto)]
