// What the parts do together: the model session and the theorems over building, rounds, tag sessions, sealing, opening
// and checking. They are mathematics: the definitions stand in specs/, the theorems in proofs/, and there is no code.

#![tactic(auto)]
