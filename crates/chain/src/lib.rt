// What a call makes of a chain: its stages, what it declines, its outcome. Definitions and laws, and no code.
#![tactic(auto)]
