//! Rows, which are accepted reports.
ghost use Rattle.std.specs.Prelude.{◌≡◌, ◌≤◌, length};
ghost use Rattle.trace_types.specs.text.Text.{kind_text};

use crate::{Name, Preds};

/// The kind of a report.
#[derive(Clone, Copy, Debug, PartialEq, Eq)]
pub enum Kind {
    /// The task did something by itself.
    Local,
    /// The task started a new one, which is named.
    Spawn,
    /// The task sent a message, which is named.
    Send,
    /// The task received a message, which is named.
    Recv,
    /// The task ended.
    End,
    /// The task joined an ended one, which is named.
    Join,
}

impl Kind {
    /// The word for the kind.
    pub fn text(self) -> &'static str
        ensures text { result.now ≡ kind_text self }
        ensures short { length result.now ≤ 5 }
    {
        match self {
            Kind::Local => "local",
            Kind::Spawn => "spawn",
            Kind::Send => "send",
            Kind::Recv => "recv",
            Kind::End => "end",
            Kind::Join => "join",
        }
    }
}

/// An accepted report, which is one event. Event k is the k-th row of its tenant, from 1.
#[derive(Debug, Drop, PartialEq, Eq)]
pub struct Row {
    /// What the task did.
    pub kind: Kind,
    /// The acting task.
    pub task: Name,
    /// The task or message that the report names beside the acting task.
    pub name: Option<Name>,
    /// The predecessors, which increase.
    pub preds: Preds,
}

impl Row {
    /// An equal row. It takes no memory.
    pub fn share(&self) -> Row
        ensures { result ≡ self.now }
    {
        Row {
            task: self.task,
            kind: self.kind,
            name: self.name,
            preds: self.preds.share(),
        }
    }
}
