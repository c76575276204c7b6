//! Demand 3, "loss can't renumber", over the rule book: specs/ has the statement, proofs/ its proof.
#![tactic(auto)]
