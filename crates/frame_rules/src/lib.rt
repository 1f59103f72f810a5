// No code: functions that share a frame (02 l): who may make a slot, demand 3 in a frame, and that formulas do not disturb each other.

#![tactic(auto)]
