// Laws of lists and numbers that know nothing of ciphers. They are mathematics: the definitions
// stand in specs/, the laws in proofs/, and there is no code.

#![tactic(auto)]
