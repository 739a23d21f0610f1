use node::Code;

// The settings that all buckets of a table share.
#[derive(Clone, Copy, Default)]
pub struct Settings {
    // How long a new pending waits, in milliseconds.
    pub pending_timeout: u64,
    // The maximum of connected incoming nodes.
    pub max_incoming: usize,
    // The bucket's IP filter: 0 off, 1 on.
    pub filter: Code,
}
