// What the library promises, said of document 01's outcome definitions: it is in specs/ and proofs/.
#![tactic(auto)]
