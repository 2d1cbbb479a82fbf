// The theory of the numbering by first word: it is in proofs/.
#![tactic(auto)]
