// How large the DC level and what the stage writes become, and how close the undo comes: definitions and laws, and no code.
#![tactic(auto)]
