// No code: specs/ and proofs/ hold demand 3, of what the calls hand back.
#![tactic(auto)]
