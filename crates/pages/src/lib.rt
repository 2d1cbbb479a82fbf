// Document 01's texts and programs: the definitions are in specs/, the figures in proofs/.
#![tactic(auto)]
