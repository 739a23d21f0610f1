// The IP filter's limits, and its test on two values (filter.rs). The filter itself is `places::ip_filter`.
ghost use Rattle.std.specs.Prelude.{◌≡◌};
ghost use Rattle.model.specs.Filter.{counts};
ghost use Rattle.node.specs.Node.{value_of};

use crate::Value;

// How many values of one /24, unequal to a value, fail the table's filter.
pub const MAX_NODES_PER_SUBNET_TABLE: usize = 10;

// The same for a bucket's filter.
pub const MAX_NODES_PER_SUBNET_BUCKET: usize = 2;

// Does `other` count against `value`: both have addresses of one /24, and they are unequal.
pub fn counts(value: Value, other: Value) -> bool
    ensures { result ≡ counts (value_of value) (value_of other) }
{
    let unequal = !other.eq(value);
    let net = (value.a == other.a) & ((value.b == other.b) & (value.c == other.c));
    ((value.flag == 1) & (other.flag == 1) & net) & unequal
}
