// Rows of tests, by which the definitions of every refusal are written (`specs/Rows.antt`), and their
// laws (`proofs/Laws.antt`). There is no code here.
#![tactic(auto)]
