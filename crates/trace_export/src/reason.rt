//! The reasons for which a line is faulty, in the order in which they are looked for.
ghost use Rattle.std.specs.Prelude.{◌≡◌};
ghost use Rattle.trace_export.specs.Reasons.{reason_number};

/// Why a line of an export is faulty. The first of several reasons is told.
#[derive(Clone, Copy, Debug, PartialEq, Eq)]
pub enum Reason {
    /// The line is no JSON, nests it deeper than 127 levels, or has more than 65536 bytes.
    NoJson,
    /// The line is no object of exactly the six keys with their kinds of values. As the first line it is no header
    /// either.
    NoEvent,
    /// The event is not the number of the line, with a header not counted, or is above 16384.
    Number,
    /// The predecessors do not increase, or are no earlier events.
    Preds,
    /// The text of the stamp is refused.
    Stamp,
    /// The trees of an earlier event and of this one do not compare as the listed edges say. A check tells it alone.
    Order,
    /// The request of the line is refused after those of the lines before it. Loading tells it alone.
    Refused,
    /// The request leaves other predecessors or another stamp. Loading tells it alone.
    NotDue,
}

impl Reason {
    /// The number of the reason in a verdict, from 1 to 8.
    pub fn number(self) -> u64
        ensures { result ≡ reason_number self }
    {
        match self {
            Reason::NoJson => 1,
            Reason::NoEvent => 2,
            Reason::Number => 3,
            Reason::Preds => 4,
            Reason::Stamp => 5,
            Reason::Order => 6,
            Reason::Refused => 7,
            Reason::NotDue => 8,
        }
    }
}
