// The trials that docs/RULES.md marks P, as one table under one statement about the definitions
// (`specs/Table.antt`, `proofs/Trials.antt`). There is no code here.
#![tactic(auto)]
