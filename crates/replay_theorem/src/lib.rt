// A replay prints what the rules give for the whole recording: a theorem on the definitions of the replay, and no code.
#![tactic(auto)]
