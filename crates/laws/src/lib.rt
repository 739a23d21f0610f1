#![tactic(auto)]

// Laws of the definitions of the crate `model`, in proofs/. Nothing here runs.
