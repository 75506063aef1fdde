// What the writer's calls come to, one after the other: demand 2, what append refuses and takes, and the bad writers that are
// tried. No running code: these theorems stand apart from the functions of `writer`, so that a check of those does not pay for them.
#![tactic(auto)]
