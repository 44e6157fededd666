// What Forkcanyon claims, on one page: statements and their proofs, no code.
#![tactic(auto)]
