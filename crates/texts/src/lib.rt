// What reading makes of the text of a chart: it is in specs/ and proofs/.
#![tactic(auto)]
