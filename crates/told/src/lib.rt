// Theorems only, in proofs/, of what specs/ defines: what a written deck comes to, in the definition's words.
#![tactic(auto)]
