// The wrong programs that document 01 names, and that the demands shut them out: it is in specs/ and proofs/.
#![tactic(auto)]
