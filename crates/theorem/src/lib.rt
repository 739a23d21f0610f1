#![tactic(auto)]

// The proof that every bucket is what the log says, and of what became of pendings, in proofs/; Theorem has the statements. Nothing here runs.
