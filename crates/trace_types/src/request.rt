//! Requests, and what reports say.
ghost use Rattle.std.specs.Prelude.{◌≡◌, IsTrue, IfSome, None, Some};
ghost use Rattle.trace_types.specs.tenant.Reported.{reported};
ghost use Rattle.trace_types.specs.tenant.Tenant.{is_report};
ghost use Rattle.trace_types.specs.text.Name.{is_name};
ghost use Rattle.trace_types.specs.text.Text.{CanBeWritten};

use crate::{Kind, Name};

/// A request of one tenant. A line spells event numbers of at most nine digits.
#[derive(Clone, Copy, Debug, PartialEq, Eq)]
pub enum Request {
    /// Reports that the task did something by itself.
    Local(Name),
    /// Reports that the first task starts the second, a new one.
    Spawn(Name, Name),
    /// Reports that the task sends the message, a new one.
    Send(Name, Name),
    /// Reports that the task receives the message.
    Recv(Name, Name),
    /// Reports that the task ends.
    End(Name),
    /// Reports that the first task joins the second, which has ended.
    Join(Name, Name),
    /// Asks how the first event stands to the second.
    Order(u64, u64),
    /// Asks for the other events that reach the event.
    Past(u64),
    /// Asks for the events that neither reach the event nor are reached from it.
    Concurrent(u64),
    /// Asks for the last event of each task that reaches the event. The event itself is one of these.
    Cut(u64),
    /// Asks for the row of the event.
    Event(u64),
    /// Asks for the stamp of the event.
    Stamp(u64),
    /// Asks for the state and the last event of the task.
    Task(Name),
    /// Asks for the send and the receipts of the message.
    Message(Name),
    /// Asks how many events, tasks ever and messages there are.
    Count,
}

/// What a report says.
#[derive(Clone, Copy, Debug, PartialEq, Eq)]
pub struct Reported {
    /// What the task did.
    pub kind: Kind,
    /// The acting task.
    pub task: Name,
    /// The task or message that the report names beside the acting task.
    pub name: Option<Name>,
}

impl Request {
    /// Whether the request is a report. Every other one is a query.
    pub fn is_report(&self) -> bool
        ensures { result ≡ is_report self.now }
    {
        matches!(
            self,
            Request::Local(_)
                | Request::Spawn(..)
                | Request::Send(..)
                | Request::Recv(..)
                | Request::End(_)
                | Request::Join(..)
        )
    }

    /// Returns what the request reports, or `None` if it is a query. It takes no memory.
    pub fn reported(&self) -> Option<Reported>
        ensures reported { result ≡ reported self.now }
        ensures written { IfSome result (λ _. CanBeWritten self.now) }
    {
        match *self {
            Request::Local(task) => Some(alone(Kind::Local, task)),
            Request::Spawn(task, child) => Some(naming(Kind::Spawn, task, child)),
            Request::Send(task, message) => Some(naming(Kind::Send, task, message)),
            Request::Recv(task, message) => Some(naming(Kind::Recv, task, message)),
            Request::End(task) => Some(alone(Kind::End, task)),
            Request::Join(task, child) => Some(naming(Kind::Join, task, child)),
            Request::Order(..)
            | Request::Past(_)
            | Request::Concurrent(_)
            | Request::Cut(_)
            | Request::Event(_)
            | Request::Stamp(_)
            | Request::Task(_)
            | Request::Message(_)
            | Request::Count => None,
        }
    }
}

/// The report of this kind by this task, which names nothing besides.
fn alone(kind: Kind, task: Name) -> Reported
    ensures reported { result ≡ record { kind = kind; task = task; name = None } }
    ensures written { IsTrue (is_name task) }
{
    let _ = task.len;
    Reported {
        kind,
        task,
        name: None,
    }
}

/// The report of this kind by this task, which names this task or message.
fn naming(kind: Kind, task: Name, name: Name) -> Reported
    ensures reported { result ≡ record { kind = kind; task = task; name = Some name } }
    ensures task { IsTrue (is_name task) }
    ensures name { IsTrue (is_name name) }
{
    let _ = (task.len, name.len);
    Reported {
        kind,
        task,
        name: Some(name),
    }
}
