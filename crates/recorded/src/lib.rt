// 3/14 from the table to the tallies: a trace answers by the records, and tallies the readings. Theorems in proofs/; no running code.
#![tactic(auto)]
