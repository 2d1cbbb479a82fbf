// Further cases of the definitions, worked by hand: they are in specs/ and proofs/.
#![tactic(auto)]
