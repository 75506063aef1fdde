// What an ESA configuration table is: its units, pins, records and answers. The layout, the rules and the
// verdict are definitions in specs/, the theorems about them stand in proofs/. What runs is the number of a rule.
#![tactic(auto)]

pub mod answers;
pub mod pins;
pub mod records;
pub mod settings;
pub mod text;
pub mod units;
