// One record, however a signal is cut into calls: theorems on the chain's definitions, and no code.
#![tactic(auto)]
