//! What the contracts of the calls come to (01, "How much a contract has to say"): theorems, and no code.
#![tactic(auto)]
