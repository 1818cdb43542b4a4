// Document 01's bench marks, as one theorem on the rules, and closed cases of the whole impulse stage. No code.
#![tactic(auto)]
