// The figures that are to be proved: one table in specs/, one proof in proofs/, no code.
#![tactic(auto)]
