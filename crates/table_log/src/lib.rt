#![tactic(auto)]

// The log of document 01, "What the log says", and what is claimed of it, in specs/. Nothing here runs.
