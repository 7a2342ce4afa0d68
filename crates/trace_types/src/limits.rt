//! The limits of a tenant.
ghost use Rattle.std.specs.Prelude.{◌≡◌, ◌↔◌, IsTrue, IsSome, IfSome};
ghost use Rattle.trace_types.specs.tenant.Limits.{are_limits};
ghost use Rattle.trace_types.specs.text.Name.{is_between};

use std::marker::Model;

/// How many events, tasks and messages one tenant may have, each at least 1. Tenants share no limit.
#[derive(Clone, Copy, Debug, PartialEq, Eq)]
pub struct Limits {
    events: u64,
    tasks: u64,
    messages: u64,
}

impl Model for Limits {
    ghost use Rattle.std.specs.Prelude.{IsTrue};
    ghost use Rattle.trace_types.specs.tenant.Limits.{Limits as Bounds, are_limits};

    ghost Value = { Bounds };

    ghost view = { λ l. record { events = l.events; tasks = l.tasks; messages = l.messages } };

    ghost invariant = { λ l. IsTrue (are_limits l.events l.tasks l.messages) };

    ghost inverse = { λ l. record { events = l.events; tasks = l.tasks; messages = l.messages } };
}

impl Limits {
    /// The greatest limit on events.
    pub const MOST_EVENTS: u64 = 16384;

    /// The limit on events if none is asked for.
    pub const DEFAULT_EVENTS: u64 = 4096;

    /// The greatest limit on tasks.
    pub const MOST_TASKS: u64 = 2048;

    /// The limit on tasks if none is asked for.
    pub const DEFAULT_TASKS: u64 = 512;

    /// The greatest limit on messages.
    pub const MOST_MESSAGES: u64 = 16384;

    /// The limit on messages if none is asked for.
    pub const DEFAULT_MESSAGES: u64 = 2048;

    /// Returns these limits, or `None` exactly if one is 0 or above the greatest. It takes no memory.
    pub fn read(events: u64, tasks: u64, messages: u64) -> Option<Limits>
        ensures ranges { IsSome result ↔ IsTrue (are_limits events tasks messages) }
        ensures limits { IfSome result (λ limits. limits ≡ record { events = events; tasks = tasks; messages = messages }) }
    {
        if is_within(events, Limits::MOST_EVENTS)
            && is_within(tasks, Limits::MOST_TASKS)
            && is_within(messages, Limits::MOST_MESSAGES)
        {
            Some(Limits {
                events,
                tasks,
                messages,
            })
        } else {
            None
        }
    }

    /// The most events that the tenant may have.
    pub fn events(self) -> u64
        ensures value { result ≡ self.events }
        ensures ranges { IsTrue (are_limits self.events self.tasks self.messages) }
    {
        self.events
    }

    /// The most tasks that the tenant may ever have. The task `root` counts, and so do joined tasks.
    pub fn tasks(self) -> u64
        ensures { result ≡ self.tasks }
    {
        self.tasks
    }

    /// The most messages that the tenant may send.
    pub fn messages(self) -> u64
        ensures { result ≡ self.messages }
    {
        self.messages
    }
}

impl Default for Limits {
    ghost is_default = { λ l. l ≡ record { events = 4096; tasks = 512; messages = 2048 } };

    fn default() -> Limits {
        Limits {
            events: Limits::DEFAULT_EVENTS,
            tasks: Limits::DEFAULT_TASKS,
            messages: Limits::DEFAULT_MESSAGES,
        }
    }
}

fn is_within(amount: u64, most: u64) -> bool
    ensures { result ≡ is_between 1 most amount }
{
    1 <= amount && amount <= most
}
