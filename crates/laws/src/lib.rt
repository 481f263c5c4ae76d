// Laws that several crates cite, and no code: definitions in specs/, what holds of them in proofs/.
#![tactic(auto)]
