// What a bucket holds: values, statuses and nodes (bucket.rs), and the filter's test (filter.rs).
#![tactic(auto)]

ghost use Rattle.std.specs.Prelude.{◌≡◌, true, ◌&&◌, ◌≤◌, leb, IfSome, MatchOption};
ghost use Rattle.std.specs.Option.{is_some};
ghost use Rattle.std.proofs.Props.{props};
ghost use Rattle.model.specs.Value.{same_value};
ghost use Rattle.model.specs.Node.{connected_incoming};
ghost use Rattle.model.specs.Call.{is_one, optional};
ghost use Rattle.node.specs.Node.{value_of, node_of, value_codes, status_codes, node_codes, zero_node, is_zero, restated, revalued};
ghost use Rattle.node.specs.Status.{state_code, direction_code, state_of, direction_of, optional_of};
ghost use Rattle.node.specs.Refusal.{number_of};

use key::Key;
use std::fmt;

pub mod filter;

// Why a call is refused: the first question that fails, by the names of include/kbuckets.h (01, "The gatekeeper's questions"; 02).
#[derive(Clone, Copy, Debug, PartialEq, Eq)]
pub enum Refusal {
    // The storage, or the bucket, has another length.
    Size = 1,
    // The settings, the queue or a bucket that the call reads are malformed.
    Form = 2,
    // A key is not 32 bytes.
    Key = 3,
    // A code is out of range.
    Code = 4,
    // The time and the pending timeout are together above 2^64 - 1.
    Time = 5,
    // n is above 4096, or the output or the answer is too short.
    Output = 6,
    // The key is not of the kind that the entry action needs.
    Kind = 7,
    // The call would leave more than 64 records in the queue.
    Queue = 8,
    // The bytes to be read cannot be loaded, or the table holds something.
    Load = 9,
    // A window, a closed date, the date or the minute is no such thing, or there are too many windows or closed dates.
    Hours = 10,
    // The key is new, and the moment is outside all windows.
    Closed = 11,
}

impl fmt::Display for Refusal {
    fn fmt<W: fmt::Write>(&self, f: &mut fmt::Formatter<W>) -> fmt::Result {
        write!(f, "refused with {}", self.number())
    }
}

impl Refusal {
    // The number of the question.
    pub fn number(self) -> u8
        ensures { result ≡ number_of self }
    {
        self as u8
    }
}

// A code: 0 or 1, of a direction or a state that need not be given also 2. A number and no enum, since question 4 is asked of it: a call
// takes any code and refuses a wrong one, and behind the question the code is the byte that is stored (docs/DECISIONS.md).
pub type Code = u8;

// The number of a slot of the host's record store: 64 bits (02, slip 2).
pub type Slot = u64;

// An optional IPv4 address and a slot of the host's record store. An absent address has flag 0 and zero octets. The octets are fields of
// their own: they are public, and each test of them is joined by `&`.
#[derive(Clone, Copy, Default)]
pub struct Value {
    pub flag: Code,
    pub a: u8,
    pub b: u8,
    pub c: u8,
    pub d: u8,
    pub slot: Slot,
}

// The connection state of a node. It and the direction are the Rust's two enums; a trait for their codes would be longer than both
// `from_code`, and TryFrom for both proves, but would stand beside `from_code`, which is public, 12 lines longer each.
#[derive(Clone, Copy)]
pub enum ConnectionState {
    Disconnected = 0,
    Connected = 1,
}

// How the node was connected to: it contacted us, or we contacted it.
#[derive(Clone, Copy)]
pub enum ConnectionDirection {
    Outgoing = 0,
    Incoming = 1,
}

// The status of a node in a bucket, by the codes of question 4.
#[derive(Clone, Copy, PartialEq, Eq, Default)]
pub struct NodeStatus {
    // 0 disconnected, 1 connected.
    pub state: Code,
    // 0 outgoing, 1 incoming.
    pub direction: Code,
}

// A node in a bucket: a peer's key, the value that goes with it, and its status.
#[derive(Clone, Copy, Default)]
pub struct Node {
    pub key: Key,
    pub value: Value,
    pub status: NodeStatus,
}

// What passed question 4 is of a type of its own, made by `of`, the question's test. One generic type would need a trait for the question,
// with an impl and two clauses for each of the three. A value that passed it.
#[derive(Clone, Copy)]
pub struct ValueInRange {
    pub value: Value,
    pub ghost codes: { value_codes value ≡ true },
}

// A status that passed question 4.
#[derive(Clone, Copy)]
pub struct StatusInRange {
    pub status: NodeStatus,
    pub ghost codes: { status_codes status ≡ true },
}

// A node that passed question 4.
#[derive(Clone, Copy)]
pub struct NodeInRange {
    pub node: Node,
    pub ghost codes: { node_codes node ≡ true },
}

// All of a node but its key.
#[derive(Clone, Copy)]
pub struct NodeFields {
    pub value: ValueInRange,
    pub status: StatusInRange,
}

// A status to be set that passed question 4.
#[derive(Clone, Copy)]
pub struct StatusUpdate {
    pub state: Code,
    // Where none is given, the old one stays.
    pub direction: Option<Code>,
    pub ghost state_bound: { state ≤ 1 },
    pub ghost direction_bound: { IfSome direction (λ d. d ≤ 1) } by { Prim.hlevel props },
}

// What update_node sets, where it passed question 4.
#[derive(Clone, Copy)]
pub struct NodeUpdate {
    pub value: ValueInRange,
    // Where none is given, the old one stays.
    pub state: Option<Code>,
    pub ghost state_bound: { IfSome state (λ u. u ≤ 1) } by { Prim.hlevel props },
}

// A code that need not be given: 2 is none given.
fn given(code: Code) -> Option<Code>
    requires { code ≤ 2 }
    ensures value { optional_of result ≡ optional code }
    ensures bound { IfSome result (λ c. c ≤ 1) }
{
    (code != 2).then_some(code)
}

impl ValueInRange {
    // Internal: the value, if question 4 passes.
    pub fn of(value: Value) -> Option<ValueInRange>
        ensures passes { is_some result ≡ value_codes value }
        ensures value { IfSome result (λ v. v.value ≡ value) }
    {
        if !value.in_range() {
            return None;
        }
        Some(ValueInRange { value })
    }
}

impl StatusInRange {
    // Internal: the status, if question 4 passes.
    pub fn of(status: NodeStatus) -> Option<StatusInRange>
        ensures passes { is_some result ≡ status_codes status }
        ensures value { IfSome result (λ s. s.status ≡ status) }
    {
        if !status.in_range() {
            return None;
        }
        Some(StatusInRange { status })
    }
}

impl NodeFields {
    // Internal: value and status, if question 4 passes.
    pub fn of(value: Value, status: NodeStatus) -> Option<NodeFields>
        ensures passes { is_some result ≡ (value_codes value && status_codes status) }
        ensures value { IfSome result (λ f. (f.value.value ≡ value) × (f.status.status ≡ status)) }
    {
        let value = ValueInRange::of(value)?;
        let status = StatusInRange::of(status)?;
        Some(NodeFields { value, status })
    }

    // Internal: the node of this key.
    pub fn with_key(self, key: Key) -> NodeInRange
        ensures { result.node ≡ record { key = key; value = self.value.value; status = self.status.status } }
    {
        NodeInRange {
            node: Node {
                key,
                value: self.value.value,
                status: self.status.status,
            },
        }
    }
}

impl StatusUpdate {
    // Internal: a state and a direction that need not be given (2), if question 4 passes.
    pub fn of(state: Code, direction: Code) -> Option<StatusUpdate>
        ensures passes { is_some result ≡ (leb state 1 && leb direction 2) }
        ensures value { IfSome result (λ u. (u.state ≡ state) × (optional_of u.direction ≡ optional direction)) }
    {
        if 1 < state || 2 < direction {
            return None;
        }
        Some(StatusUpdate {
            state,
            direction: given(direction),
        })
    }
}

impl NodeUpdate {
    // Internal: a value and a state that need not be given (2), if question 4 passes.
    pub fn of(value: Value, state: Code) -> Option<NodeUpdate>
        ensures passes { is_some result ≡ (value_codes value && leb state 2) }
        ensures value { IfSome result (λ u. (u.value.value ≡ value) × (optional_of u.state ≡ optional state)) }
    {
        let value = ValueInRange::of(value)?;
        if 2 < state {
            return None;
        }
        Some(NodeUpdate {
            value,
            state: given(state),
        })
    }

    // Internal: the status that it sets, if any.
    pub fn status(self) -> Option<StatusUpdate>
        ensures { MatchOption result (self.state ≡ None) (λ s. (self.state ≡ Some s.state) × (s.direction ≡ None)) }
    {
        let state = self.state?;
        Some(StatusUpdate {
            state,
            direction: None,
        })
    }
}

impl ConnectionState {
    // The state of a code; a code over 1 is refused.
    pub fn from_code(code: Code) -> Result<ConnectionState, Refusal>
        ensures { result ≡ state_of code }
    {
        match code {
            0 => Ok(ConnectionState::Disconnected),
            1 => Ok(ConnectionState::Connected),
            _ => Err(Refusal::Code),
        }
    }

    pub fn code(self) -> Code
        ensures { result ≡ state_code self }
    {
        self as Code
    }
}

impl ConnectionDirection {
    // The direction of a code; a code over 1 is refused.
    pub fn from_code(code: Code) -> Result<ConnectionDirection, Refusal>
        ensures { result ≡ direction_of code }
    {
        match code {
            0 => Ok(ConnectionDirection::Outgoing),
            1 => Ok(ConnectionDirection::Incoming),
            _ => Err(Refusal::Code),
        }
    }

    pub fn code(self) -> Code
        ensures { result ≡ direction_code self }
    {
        // A `match`, where the state has `as`: so each body is a text of its own, and an edit can give one variant alone a wrong code.
        match self {
            ConnectionDirection::Outgoing => 0,
            ConnectionDirection::Incoming => 1,
        }
    }
}

impl NodeInRange {
    // Internal: the node, if question 4 passes.
    pub fn of(node: Node) -> Option<NodeInRange>
        ensures passes { is_some result ≡ node_codes node }
        ensures value { IfSome result (λ n. n.node ≡ node) }
    {
        if !node.in_range() {
            return None;
        }
        Some(NodeInRange { node })
    }

    // Internal: its value, which passed question 4 too.
    pub fn value(self) -> ValueInRange
        ensures { result.value ≡ self.node.value }
    {
        ValueInRange {
            value: self.node.value,
        }
    }

    // Internal: its status, to be set.
    pub fn status(self) -> StatusUpdate
        ensures { (result.state ≡ self.node.status.state) × (result.direction ≡ Some self.node.status.direction) }
    {
        StatusUpdate {
            state: self.node.status.state,
            direction: Some(self.node.status.direction),
        }
    }

    // Internal: the node with another status.
    pub fn with_status(self, status: StatusUpdate) -> NodeInRange
        ensures { result.node ≡ restated status.state status.direction self.node }
    {
        NodeInRange {
            node: self.node.with_status(status.state, status.direction),
        }
    }

    // Internal: the node with another value.
    pub fn with_value(self, value: ValueInRange) -> NodeInRange
        ensures { result.node ≡ revalued value.value self.node }
    {
        NodeInRange {
            node: self.node.with_value(value.value),
        }
    }
}

impl NodeStatus {
    // Question 4 of a status: state and direction 0 or 1.
    pub fn in_range(self) -> bool
        ensures { result ≡ status_codes self }
    {
        (self.state <= 1) & (self.direction <= 1)
    }

    // Connected. This test and the next have the Rust's names, and `Node`'s two hand on to them.
    pub fn is_connected(self) -> bool
        ensures { result ≡ is_one self.state }
    {
        self.state == 1
    }

    pub fn is_incoming(self) -> bool
        ensures { result ≡ is_one self.direction }
    {
        self.direction == 1
    }
}

impl Value {
    // An address: flag and four octets.
    pub const ADDRESS: usize = 5;

    // A slot, big-endian.
    pub const SLOT: usize = 8;

    pub const BYTES: usize = Value::ADDRESS + Value::SLOT;

    // Values are equal when both have one address, or neither has one, and their slots are equal. It is no derived `==`: the octets of two
    // values without an address are not compared.
    pub fn eq(self, other: Value) -> bool
        ensures { result ≡ same_value (value_of self) (value_of other) }
    {
        let x = self.flag == 1;
        let y = other.flag == 1;
        let octets = (self.a == other.a)
            & ((self.b == other.b) & (self.c == other.c))
            & (self.d == other.d);
        ((x & y & octets) | (!x & !y)) & (self.slot == other.slot)
    }

    // Question 4 of a value: flag 0 or 1, octets zero at 0.
    pub fn in_range(self) -> bool
        ensures { result ≡ value_codes self }
    {
        (self.flag == 1)
            | ((self.flag == 0)
                & ((self.a == 0) & ((self.b == 0) & ((self.c == 0) & (self.d == 0)))))
    }
}

impl Node {
    // Key, state, direction, value.
    pub const BYTES: usize = Key::BYTES + 2 + Value::BYTES;

    pub fn is_connected(self) -> bool
        ensures { result ≡ (node_of self).connected }
    {
        self.status.is_connected()
    }

    // A connected incoming node.
    pub fn is_connected_incoming(self) -> bool
        ensures { result ≡ connected_incoming (node_of self) }
    {
        let status = self.status;
        status.is_connected() && status.is_incoming()
    }

    // Question 4 of a node: state and direction 0 or 1, and the value's codes.
    pub fn in_range(self) -> bool
        ensures { result ≡ node_codes self }
    {
        self.status.in_range() & self.value.in_range()
    }

    // What an unused place holds. By a name of its own, and not `default` alone: as one equation, where `default` ensures it field by
    // field.
    pub fn zero() -> Node
        ensures { result ≡ zero_node }
    {
        Node::default()
    }

    // Does an unused place hold this? The value's fields are compared one by one, since a value has no `==`.
    pub fn is_zero(self) -> bool
        ensures { result ≡ is_zero self }
    {
        let v = self.value;
        let value = (v.flag == 0)
            & ((v.a == 0) & ((v.b == 0) & ((v.c == 0) & ((v.d == 0) & (v.slot == 0)))));
        self.key == Key::default() && value && self.status == NodeStatus::default()
    }

    // The node with another status; where no direction is given, the old one stays. This and `with_value` are changed copies by names,
    // which the contracts cite.
    pub fn with_status(self, state: Code, direction: Option<Code>) -> Node
        ensures { result ≡ restated state direction self }
    {
        let direction = direction.unwrap_or(self.status.direction);
        Node {
            status: NodeStatus { state, direction },
            ..self
        }
    }

    pub fn with_value(self, value: Value) -> Node
        ensures { result ≡ revalued value self }
    {
        Node { value, ..self }
    }
}
