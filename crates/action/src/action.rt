ghost use Rattle.std.specs.Prelude.{◌≡◌};
ghost use Rattle.action.specs.Bytes.{action_bytes, action_of};
ghost use Rattle.action.specs.Order.{precedes};

/// The latest time that an action may have. No action has time 0.
pub const LATEST_TIME: u32 = 4_000_000_000;

/// The most actions that a transaction may have.
pub const MOST_WRITES: usize = 16;

/// How many bytes an action's record has, in a message and in a strip.
pub const ACTION_BYTES: usize = 16;

/// One change to one article (docs/RULES.md, section 1).
#[derive(Clone, Copy, Debug, Default, PartialEq, Eq)]
pub struct Action {
    /// The site whose table committed it.
    pub coordinator: u8,
    /// A number that the coordinator counts on, at least 1. It is no time of day.
    pub time: u32,
    /// The time of the first action of its transaction.
    pub transaction: u32,
    pub article: u8,
    /// What is done, by the number that the table's kind of figure has for it.
    pub operation: u8,
    /// What it means is up to the operation.
    pub amount: i32,
}

impl Action {
    /// Whether the action comes strictly before the other in the order of actions (docs/RULES.md, section 3).
    pub fn precedes(&self, other: &Action) -> bool
        ensures { result ≡ precedes self.now other.now }
    {
        (self.time, self.coordinator, self.article) < (other.time, other.coordinator, other.article)
    }

    /// The action as record A of a message (docs/MESSAGES.md, section 1).
    pub fn to_bytes(&self) -> [u8; ACTION_BYTES]
        ensures { result ≡ action_bytes self.now }
    {
        let [t3, t2, t1, t0] = self.time.to_be_bytes();
        let [n3, n2, n1, n0] = self.transaction.to_be_bytes();
        let [a3, a2, a1, a0] = self.amount.to_be_bytes();
        [
            b'A',
            self.coordinator,
            t3,
            t2,
            t1,
            t0,
            n3,
            n2,
            n1,
            n0,
            self.article,
            self.operation,
            a3,
            a2,
            a1,
            a0,
        ]
    }

    /// The action that the bytes of a record A stand for. The first byte is not looked at.
    pub fn from_bytes(bytes: &[u8; ACTION_BYTES]) -> Action
        ensures { result ≡ action_of bytes.now }
    {
        let [
            _,
            coordinator,
            t3,
            t2,
            t1,
            t0,
            n3,
            n2,
            n1,
            n0,
            article,
            operation,
            a3,
            a2,
            a1,
            a0,
        ] = *bytes;
        Action {
            coordinator,
            time: u32::from_be_bytes([t3, t2, t1, t0]),
            transaction: u32::from_be_bytes([n3, n2, n1, n0]),
            article,
            operation,
            amount: i32::from_be_bytes([a3, a2, a1, a0]),
        }
    }
}
