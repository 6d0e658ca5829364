// What it is for a contract to have one result (`specs/Coincidence.antt`), and its laws
// (`proofs/Laws.antt`). There is no code here.
#![tactic(auto)]
