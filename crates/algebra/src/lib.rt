// The algebra of checked charts: it is in proofs/.
#![tactic(auto)]
