//! The texts of help.

/// What help says after the commands.
pub(crate) const HELP: &str = "\
A tenant is a group of tasks whose events are ordered among themselves. Its requests report
events, as `local root` and `send root m`, and ask about them, as `order 1 2`. An export is a
tenant's trace as lines of JSON: a header, and one for each event, with its stamp and the events
that it follows.

Example:
  printf 'x local root\\nx local root\\nx order 1 2\\n' | itc_trace replay x

`itc_trace help replay` tells of the lines and the options, `itc_trace help serve` of programs that
connect, `itc_trace help check` of exports, `itc_trace help load` of the way back from one.";

/// What help on `replay` says after the options.
pub(crate) const REPLAY_HELP: &str = "\
Each line of standard input is TENANT REQUEST, and each line of output TENANT REPLY, in the same
order. A reply is a code and what belongs to it: 200 and 201 tell what was done, others why not.

Requests that report, and are answered 201 with the event's number:
  local TASK, send TASK MESSAGE, recv TASK MESSAGE, spawn TASK NEW, end TASK, join TASK ENDED
Requests that ask, and are answered 200:
  order A B, past A, concurrent A, cut A, event A, stamp A, task TASK, message MESSAGE, count

Each tenant starts with the task root, and has the limits for itself. No reply depends on how many
comparisons are remembered. With --export no reply is written, and at the end lines of JSON: one
that names the tenant and its limits, and one for each event of it.

Examples:
  printf 'x local root\\ny local root\\nx stamp 1\\n' | itc_trace replay --events 100 x y
  x 201 1
  y 201 1
  x 200 [1;1]
  printf 'x local root\\n' | itc_trace replay --export x x
  {\"events\":4096,\"messages\":2048,\"tasks\":512,\"tenant\":\"x\",\"version\":2}
  {\"event\":1,\"kind\":\"local\",\"name\":\"-\",\"preds\":[],\"stamp\":\"[1;1]\",\"task\":\"root\"}";

/// What help on `serve` says after the options.
pub(crate) const SERVE_HELP: &str = "\
Programs connect to the port at 127.0.0.1, and each connection is a session. Its first line is
`report TENANT`, for one session at a time, which reports and asks, or `view TENANT`, for up to
eight at a time, which ask. Each further line is a request as of `replay`, without the tenant, and
is answered by a line; `quit` or the end of the lines ends the session.

`listening N` is written once programs can connect. After as many connections as --sessions says
no more is taken, and once their sessions have ended `served S faults F` tells how many there were,
and how many of them broke off.

Example:
  itc_trace serve --port 7117 x &
  printf 'report x\\nlocal root\\nquit\\n' | nc 127.0.0.1 7117
  201 1";

/// What help on `check` says after the options.
pub(crate) const CHECK_HELP: &str = "\
Standard input is an export, with its header or without. The answer is `yes N` if every line is
right and N of them list events, with status 0; else `no LINE REASON` with the first faulty line,
from 1, and the number of the first of these reasons, with status 1. `load` alone tells 7 and 8:
  1 The line is no JSON of at most 127 levels, or it has more than 65536 bytes.
  2 The line is no object with exactly the keys and values of an event, or of a header in line 1.
  3 The number of the event is not that of the line, the header not counted, or is above 16384.
  4 The predecessors do not increase, or one of them is no earlier event.
  5 The stamp is no text of a stamp: its shape is wrong, it is not normal, or it is too large.
  6 The trees of this event and of an earlier one do not compare as the predecessors say.
  7 The request that reports this event is refused after the requests of the lines before it.
  8 The predecessors or the stamp are not those that the collector gives to this event.

Example:
  printf 'x local root\\nx local root\\n' | itc_trace replay --export x x | itc_trace check
  yes 2";

/// What help on `load` says after the options.
pub(crate) const LOAD_HELP: &str = "\
Standard input is an export, with its header or without. Its requests are made again from nothing,
under the limits of its header, or without one under the greatest. If each of them is accepted
and makes what its line lists, they are written, a line for each to the tenant that is named here,
with status 0. Else nothing is written but `itc_trace: no LINE REASON` on standard error, with the
first faulty line, from 1, and the number of the first of these reasons, with status 1. `check`
alone tells 6:
  1 The line is no JSON of at most 127 levels, or it has more than 65536 bytes.
  2 The line is no object with exactly the keys and values of an event, or of a header in line 1.
  3 The number of the event is not that of the line, the header not counted, or is above 16384.
  4 The predecessors do not increase, or one of them is no earlier event.
  5 The stamp is no text of a stamp: its shape is wrong, it is not normal, or it is too large.
  6 The trees of this event and of an earlier one do not compare as the predecessors say.
  7 The request that reports this event is refused after the requests of the lines before it.
  8 The predecessors or the stamp are not those that the collector gives to this event.

Example:
  printf 'x local root\\n' | itc_trace replay --export x x | itc_trace load y
  y local root";

pub(crate) const TENANTS_HELP: &str =
    "A tenant's name: 1 to 24 letters, digits or _; 1 to 16 names, none twice";

pub(crate) const TENANT_HELP: &str = "The tenant's name, one alone: 1 to 24 letters, digits or _";

pub(crate) const EVENTS_HELP: &str = "The most events of each tenant: 1 to 16384 [default: 4096]";

pub(crate) const TASKS_HELP: &str =
    "The most tasks that each tenant ever has, root included: 1 to 2048 [default: 512]";

pub(crate) const MESSAGES_HELP: &str =
    "The most messages of each tenant: 1 to 16384 [default: 2048]";

pub(crate) const CACHE_HELP: &str =
    "How many comparisons are remembered, of all tenants together: 1 to 65536 [default: 1024]";

pub(crate) const PORT_HELP: &str = "The port of 127.0.0.1 at which programs connect: 1 to 65535";

pub(crate) const WORKERS_HELP: &str = "How many sessions are held at once: 1 to 32 [default: 4]";

pub(crate) const SESSIONS_HELP: &str =
    "After how many connections no more is taken: 1 to 1048576 [default: 1048576]";
