// The routing table of document 01 as definitions, in specs/, and facts of them, computed in proofs/. Their laws are crate laws. Only the two sizes are used by code.
#![tactic(auto)]

// How many buckets a table has (kbucket.rs, NUM_BUCKETS).
pub const NUM_BUCKETS: usize = 256;

// How many nodes a bucket holds at the most (bucket.rs, MAX_NODES_PER_BUCKET).
pub const MAX_NODES_PER_BUCKET: usize = 16;
