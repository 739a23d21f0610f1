// The names of the calls, by their numbers in a record. A write of bytes that no call leaves has a number too. A table, as calls.rt matches
// by the numbers: an enum would be made from them.

// How many calls there are.
pub(crate) const CALLS: usize = 24;

// From this number on a call is on the bucket. Its multiples write bytes, 0 among them.
pub(crate) const ON_BUCKET: u8 = 16;

pub(crate) const NAMES: [&str; CALLS] = [
    "storage written",
    "new",
    "update_node_status",
    "update_node",
    "insert_or_update",
    "remove",
    "entry",
    "present_update",
    "pending_update",
    "absent_insert",
    "iter",
    "nodes_by_distances",
    "closest_keys",
    "closest_values",
    "closest_values_predicate",
    "take_applied_pending",
    "bucket written",
    "b_new",
    "b_insert",
    "b_apply_pending",
    "b_update_status",
    "b_update_value",
    "b_update_pending",
    "b_remove",
];
