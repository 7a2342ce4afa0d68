//! The codes with which requests are refused.
ghost use Rattle.std.specs.Prelude.{◌≡◌};
ghost use Rattle.trace_types.specs.tenant.Code.{code_number, code_text};

use crate::Memory;

/// Why a request is refused. A refusal changes nothing of the tenant.
#[derive(Clone, Copy, Debug, PartialEq, Eq)]
pub enum Code {
    /// 400: the line is no request.
    Line,
    /// 401: there is no such task.
    NoTask,
    /// 402: the task to be started exists.
    TaskExists,
    /// 403: the acting task has ended.
    TaskEnded,
    /// 404: there is no such event.
    NoEvent,
    /// 405: there is no such message.
    NoMessage,
    /// 406: the message to be sent exists.
    MessageExists,
    /// 407: the task received the message before.
    AlreadyReceived,
    /// 408: the task to be joined has not ended.
    NotEnded,
    /// 409: the task to be joined was joined before.
    AlreadyJoined,
    /// 410: a view takes no report.
    ViewOnly,
    /// 413: the tenant has as many events as it may.
    EventsFull,
    /// 414: the tenant has had as many tasks as it may, joined ones included.
    TasksFull,
    /// 415: the tenant has as many messages as it may.
    MessagesFull,
    /// 420: there is no such tenant.
    NoTenant,
    /// 421: another session reports for the tenant.
    DeskTaken,
    /// 422: all views of the tenant are in use, or its desk is gone.
    NoPlace,
    /// 423: the session has made all the 1048576 requests that it may.
    SessionOver,
    /// 507: the request ran out of memory.
    NoMemory,
}

impl Code {
    /// The number in a reply, of three digits.
    pub fn number(self) -> u64
        ensures { result ≡ code_number self }
    {
        match self {
            Code::Line => 400,
            Code::NoTask => 401,
            Code::TaskExists => 402,
            Code::TaskEnded => 403,
            Code::NoEvent => 404,
            Code::NoMessage => 405,
            Code::MessageExists => 406,
            Code::AlreadyReceived => 407,
            Code::NotEnded => 408,
            Code::AlreadyJoined => 409,
            Code::ViewOnly => 410,
            Code::EventsFull => 413,
            Code::TasksFull => 414,
            Code::MessagesFull => 415,
            Code::NoTenant => 420,
            Code::DeskTaken => 421,
            Code::NoPlace => 422,
            Code::SessionOver => 423,
            Code::NoMemory => 507,
        }
    }

    /// The words that follow the number in a reply, as `no task`.
    pub fn text(self) -> &'static str
        ensures { result.now ≡ code_text self }
    {
        match self {
            Code::Line => "line",
            Code::NoTask => "no task",
            Code::TaskExists => "task exists",
            Code::TaskEnded => "task ended",
            Code::NoEvent => "no event",
            Code::NoMessage => "no message",
            Code::MessageExists => "message exists",
            Code::AlreadyReceived => "already received",
            Code::NotEnded => "not ended",
            Code::AlreadyJoined => "already joined",
            Code::ViewOnly => "view only",
            Code::EventsFull => "events full",
            Code::TasksFull => "tasks full",
            Code::MessagesFull => "messages full",
            Code::NoTenant => "no tenant",
            Code::DeskTaken => "desk taken",
            Code::NoPlace => "no place",
            Code::SessionOver => "session over",
            Code::NoMemory => "no memory",
        }
    }
}

impl From<Memory> for Code {
    ghost use Rattle.trace_types.specs.declared.code.Code.TheVariants.{NoMemory};

    ghost from_gives = { λ _ code. code ≡ NoMemory };

    fn from(_refused: Memory) -> Code {
        Code::NoMemory
    }
}
