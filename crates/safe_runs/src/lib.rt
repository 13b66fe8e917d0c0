// Safe runs: what every sequence of calls from a start comes to. Theorems in proofs/, no code.
#![tactic(auto)]
