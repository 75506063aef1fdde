// Leaving elements out of a table. Definitions stand in specs/, theorems in proofs/; no running code.
// specs/  Parts: a part of a list; Taking: the records without element k, what still names it, and the bytes closed up.
// proofs/ Parts, Among, Rising, Passing, Claims, Naming: what a part of the records inherits, rule by rule; Keeping: all of it in one
//         law; Taking, Closing: an element can be taken out exactly when nothing names it, of the records and of the bytes.
#![tactic(auto)]
