// The reading of a table that comes in pieces, as definitions (specs/) and theorems (proofs/): what is held after any bytes, what one
// byte more makes of it, and what the end answers. No running code.
#![tactic(auto)]
