// Laws of scripts and of the pen under a script, in specs/ and proofs/.
#![tactic(auto)]
