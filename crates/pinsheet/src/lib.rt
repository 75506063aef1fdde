// The pin sheet of a table over its records: for each pin the place of its first claimant. Definitions stand in specs/, theorems in
// proofs/; nothing in it runs.
#![tactic(auto)]
