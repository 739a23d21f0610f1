#![tactic(auto)]

// Demands 1 and 3 for the code, in specs/ and proofs/: a failed check changes nothing, and for every list of the table's calls every
// bucket is what the log says; what became of pendings; for the entry points and for the functions that a C host calls. Nothing here
// runs.
