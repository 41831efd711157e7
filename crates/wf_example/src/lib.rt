// The first example of WF-LEA, computed from the definitions. It is mathematics, and dear to check, so it is a crate of its own: the
// statement stands in specs/, the proof in proofs/, and there is no code.

#![tactic(auto)]
