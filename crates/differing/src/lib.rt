// Two tables side by side: what differs between the records of two accepted tables, as text. Definitions stand in specs/, theorems
// in proofs/; no running code.
// specs/  Fields: names and contents of each kind, in layout order; Differences: the lines; Compared: refusals with 1 or 2.
// proofs/ Tells, Ranges: a text tells its content; Determined: contents determine the bytes; Nothing, Equal: no lines exactly when the
//         records are equal; Exchange: with the tables exchanged; Bound: how long the text can be; Comparing: contents are compared
//         where texts are; Only: the same of bytes, and one text alone.
#![tactic(auto)]
