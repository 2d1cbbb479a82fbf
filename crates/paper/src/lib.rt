// Document 01 as definitions: they are in specs/, and its figures in proofs/.
#![tactic(auto)]
