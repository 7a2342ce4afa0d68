//! Reports that are not refused.
ghost use Rattle.std.specs.Prelude.{◌≡◌, ◌<◌, true, IfOk, OnOk, Some, None, length};
ghost use Rattle.message_book.specs.Book.{refusal_of_send};
ghost use Rattle.std.specs.Result.{result_err};
ghost use Rattle.trace_types.specs.tenant.Refusal.{refusal_of};
ghost use Rattle.trace_types.specs.tenant.Tenant.{is_report, answer_to, accepted};
ghost use Rattle.tenant_ledger.specs.Contents.{history_in, messages_in, task_in};
ghost use Rattle.tenant_ledger.specs.Kept.{IsKept};
ghost use Rattle.tenant_ledger.specs.Refusals.{Decides, refusals_of_task, refusals_of_child, refusals_of_sent, refusals_of_received, refusals_of_joined, refusals_of_named, refusals_of_room};
ghost use Rattle.tenant_ledger.specs.Reports.{IsFound, IsNamed, IsReport, kind_of, name_of, second_of};
ghost use Rattle.tenant_ledger.specs.Events.{acting_after, named_after};
ghost use Rattle.trace_types.specs.clock.Stamps.{takes_in};

use super::{Book, Task};
use crate::share::Keep;
use trace_types::{Code, Kind, Name, Request, TaskState};

/// A report that is not refused, and what the book has of its task.
#[derive(Clone, Copy)]
pub(super) struct Report {
    pub(super) task: Name,
    /// The acting task, and its place in the table of tasks.
    pub(super) acting: Task,
    pub(super) index: usize,
    pub(super) deed: Deed,
}

/// What the task did. A message or task that it receives or joins comes with its place among them, and with the event that sent
/// it, or with what the book has of it.
#[derive(Clone, Copy)]
pub(super) enum Deed {
    Local,
    /// It starts the task of this name.
    Spawn(Name),
    /// It sends the message of this name.
    Send(Name),
    /// It receives this message.
    Recv(Name, usize, u64),
    End,
    /// It joins this task.
    Join(Name, usize, Task),
}

/// What a report leaves of its tasks.
#[derive(Clone, Copy)]
pub(super) struct Left {
    /// What is to be kept of the acting task.
    pub(super) acting: Task,
    /// What is to be kept of the task that it starts or joins.
    pub(super) named: Option<Task>,
    /// The place of what it joins or receives among the tasks or messages, or 0.
    pub(super) place: usize,
}

impl Deed {
    #[inline(always)]
    pub(super) fn kind(&self) -> Kind
        ensures { result ≡ kind_of self.now }
    {
        match self {
            Deed::Local => Kind::Local,
            Deed::Spawn(_) => Kind::Spawn,
            Deed::Send(_) => Kind::Send,
            Deed::Recv(..) => Kind::Recv,
            Deed::End => Kind::End,
            Deed::Join(..) => Kind::Join,
        }
    }

    /// The task or message that is named.
    #[inline(always)]
    pub(super) fn name(&self) -> Option<Name>
        ensures { result ≡ name_of self.now }
    {
        match *self {
            Deed::Local | Deed::End => None,
            Deed::Spawn(name) | Deed::Send(name) | Deed::Recv(name, ..) | Deed::Join(name, ..) => {
                Some(name)
            }
        }
    }

    /// The event that it follows beside the last one of its task, or 0. It takes in what that event knew.
    #[inline(always)]
    pub(super) fn second(&self) -> u64
        ensures { result ≡ second_of self.now }
    {
        match self {
            Deed::Local | Deed::Spawn(_) | Deed::Send(_) | Deed::End => 0,
            Deed::Recv(_, _, sent) => *sent,
            Deed::Join(_, _, task) => task.last,
        }
    }

    /// Whether it takes in what its second event knew.
    #[inline(always)]
    pub(super) fn takes_in(&self) -> bool
        ensures { result ≡ takes_in (kind_of self.now) }
    {
        matches!(self, Deed::Recv(..) | Deed::Join(..))
    }
}

impl Report {
    /// What the report leaves of its tasks, if it is this event. The first of the ids that are made is at this
    /// place.
    #[inline(always)]
    pub(super) fn left(&self, event: u64, place: usize) -> Left
        requires event { event < 4294967296 }
        requires place { place < 18446744073709551615 }
        ensures acting { result.acting ≡ acting_after self.now.deed event place self.now.acting }
        ensures named { result.named ≡ named_after self.now.deed event place }
    {
        let acting = Task {
            last: event,
            ..self.acting
        };
        let alone = Left {
            acting,
            named: None,
            place: 0,
        };
        match self.deed {
            Deed::Local | Deed::Send(_) => alone,
            Deed::Spawn(_) => Left {
                acting: Task {
                    id: place,
                    ..acting
                },
                named: Some(Task {
                    state: TaskState::Live,
                    last: event,
                    start: event as u32,
                    id: place + 1,
                }),
                ..alone
            },
            Deed::Recv(_, there, _) => Left {
                place: there,
                ..alone
            },
            Deed::End => Left {
                acting: Task {
                    state: TaskState::Ended,
                    ..acting
                },
                ..alone
            },
            Deed::Join(_, there, task) => Left {
                acting: Task {
                    id: place,
                    ..acting
                },
                named: Some(Task {
                    state: TaskState::Joined,
                    ..task
                }),
                place: there,
                ..alone
            },
        }
    }
}

impl<S: Keep> Book<S> {
    /// The task, if it may report, and its place, else `NoTask` or `TaskEnded`.
    fn live_task(&self, name: &Name) -> Result<(&Task, usize), Code>
        requires { IsKept self.now }
        ensures task { IfOk result (λ found. task_in self.now name.now ≡ Some found.0.now) }
        ensures decides { Decides (refusals_of_task (history_in self.now) name.now) result }
    {
        let (task, place) = self.known_task(name)?;
        match task.state {
            TaskState::Live => Ok((task, place)),
            TaskState::Ended | TaskState::Joined => Err(Code::TaskEnded),
        }
    }

    /// The task, if it may be joined, and its place, else `NoTask`, `NotEnded` or `AlreadyJoined`.
    fn ended_task(&self, name: &Name) -> Result<(Task, usize), Code>
        requires { IsKept self.now }
        ensures task { IfOk result (λ found. task_in self.now name.now ≡ Some found.0) }
        ensures decides { Decides (refusals_of_joined (history_in self.now) name.now) result }
    {
        let (task, place) = self.known_task(name)?;
        match task.state {
            TaskState::Live => Err(Code::NotEnded),
            TaskState::Ended => Ok((*task, place)),
            TaskState::Joined => Err(Code::AlreadyJoined),
        }
    }

    /// Refuses one task more at the limit, and a task that exists.
    fn check_child(&self, name: &Name) -> Result<(), Code>
        requires { IsKept self.now }
        ensures decides { Decides (refusals_of_child self.now.limits (history_in self.now) name.now) result }
    {
        match self.known_task(name) {
            Ok(_) => Err(Code::TaskExists),
            Err(_) if self.tasks.len() as u64 >= self.limits.tasks() => Err(Code::TasksFull),
            Err(_) => Ok(()),
        }
    }

    /// Refuses a message that was sent, and one message more at the limit.
    fn check_message(&self, name: &Name) -> Result<(), Code>
        requires { IsKept self.now }
        ensures message { OnOk result (refusal_of_send (messages_in self.now) name.now ≡ None) }
        ensures decides { Decides (refusals_of_sent self.now.limits (history_in self.now) name.now) result }
    {
        self.messages.check_send(name)
    }

    /// The event that sent the message, and its place, if the task may receive it, else `NoMessage` or `AlreadyReceived`.
    fn sent_message(&self, task: &Name, acting: &Task, name: &Name) -> Result<(u64, usize), Code>
        requires book { IsKept self.now }
        requires acting { task_in self.now task.now ≡ Some acting.now }
        ensures message { IfOk result (λ found. IsFound self.now acting.now.start (Deed.Recv name.now found.1 found.0)) }
        ensures decides { Decides (refusals_of_received (history_in self.now) task.now name.now) result }
    {
        self.messages.find_to_receive(name, &acting.start)
    }

    /// Refuses one event more at the limit.
    fn check_room(&self) -> Result<(), Code>
        ensures room { OnOk result (length self.now.rows < 16384) }
        ensures decides { Decides (refusals_of_room self.now.limits (history_in self.now)) result }
    {
        if self.event_count() < self.limits.events() {
            Ok(())
        } else {
            Err(Code::EventsFull)
        }
    }

    /// What such a report says that its task did, or why the report is refused for the name in it.
    #[inline(always)]
    fn deed(&self, task: &Name, acting: &Task, kind: Kind, name: Option<Name>) -> Result<Deed, Code>
        requires book { IsKept self.now }
        requires acting { task_in self.now task.now ≡ Some acting.now }
        requires named { IsNamed kind name }
        ensures kind { IfOk result (λ deed. kind_of deed ≡ kind) }
        ensures name { IfOk result (λ deed. name_of deed ≡ name) }
        ensures found { IfOk result (IsFound self.now acting.now.start) }
        ensures decides { Decides (refusals_of_named self.now.limits (history_in self.now) task.now kind name) result }
    {
        match kind {
            Kind::Local => Ok(Deed::Local),
            Kind::Spawn => {
                let child = name.unwrap();
                self.check_child(&child)?;
                Ok(Deed::Spawn(child))
            }
            Kind::Send => {
                let message = name.unwrap();
                self.check_message(&message)?;
                Ok(Deed::Send(message))
            }
            Kind::Recv => {
                let message = name.unwrap();
                let (sent, place) = self.sent_message(task, acting, &message)?;
                Ok(Deed::Recv(message, place, sent))
            }
            Kind::End => Ok(Deed::End),
            Kind::Join => {
                let child = name.unwrap();
                let (found, place) = self.ended_task(&child)?;
                Ok(Deed::Join(child, place, found))
            }
        }
    }

    /// What the request reports, or why it is refused.
    pub(super) fn report(&self, request: &Request) -> Result<Report, Code>
        requires book { IsKept self.now }
        requires report { is_report request.now ≡ true }
        ensures report { IfOk result (IsReport self.now) }
        ensures answer { IfOk result (λ report. answer_to (history_in self.now) request.now ≡ accepted (history_in self.now) report.task (kind_of report.deed) (name_of report.deed)) }
        ensures refused { result_err result ≡ refusal_of self.now.limits (history_in self.now) request.now }
    {
        let Some(reported) = request.reported() else {
            return Err(Code::ViewOnly);
        };
        let (acting, index) = self.live_task(&reported.task)?;
        let deed = self.deed(&reported.task, acting, reported.kind, reported.name)?;
        self.check_room()?;
        Ok(Report {
            task: reported.task,
            acting: *acting,
            index,
            deed,
        })
    }
}
