//! The program, by its words.
ghost use Rattle.std.specs.Prelude.{◌≡◌, ◌<◌, map, OnOk, IfErr, IsErr};
ghost use Rattle.line_protocol.specs.Writing.{EndsInFault};
ghost use Rattle.collector.specs.Program.{ShowsSome, ShowsSomeAll};
ghost use Rattle.collector.specs.Runs.{Runs};

use crate::check::check_input;
use crate::fault::Fault;
use crate::load::load_input;
use crate::replay::replay_tenants;
use crate::serve::serve_programs;
use crate::show::show;
use command_line::{Asked, Refusal, read_words};
use line_protocol::{Sink, Source};
use std::convert::AsStr;
use std::net::{Net, TcpListener, TcpStream};
use std::sync::Wait;
use std::thread::Threads;

/// Does what the words after the program's name ask, and answers the status with which the program ends. The memory of a
/// replay's tenants is left to the end of the process.
///
/// The words are one of these commands, with what follows it in any order. An option stands once at most. Tenants are 1
/// to 16 names, none twice.
///
/// | Command | What follows |
/// |---|---|
/// | `replay` | Tenants, the options below, and `--export NAME` with the name of one of the tenants |
/// | `serve` | Tenants, `--port N` with N from 1 to 65535, the options below, `--workers N` and `--sessions N` |
/// | `check` | Nothing |
/// | `load` | A tenant |
///
/// | Option | Range of N | If it is left out |
/// |---|---|---|
/// | `--events N` | 1 to 16384 | 4096 |
/// | `--tasks N` | 1 to 2048 | 512 |
/// | `--messages N` | 1 to 16384 | 2048 |
/// | `--cache N` | 1 to 65536 | 1024 |
/// | `--workers N` | 1 to 32 | 4 |
/// | `--sessions N` | 1 to 1048576 | 1048576 |
///
/// | Status | When |
/// |---|---|
/// | 0 | All lines were replayed, the export was written, is right or was loaded, programs were served, or all of the help was shown |
/// | 1 | The export is faulty |
/// | 2 | The words or the tenants are refused |
/// | 3 | A read or a write failed, the input is too long, no port could be bound, or no connection accepted |
/// | 4 | It ran out of memory |
pub fn run<T, S: AsStr, R: Source, W: Sink, E: Sink>(
    rt: &T,
    words: &[S],
    reader: &mut R,
    writer: &mut W,
    errors: &mut E,
) -> u8
where
    T: AllocGlobal + Threads + Wait + Sync + Net<Listener = TcpListener, Stream = TcpStream>,
    ensures { Runs R.seen W.seen E.seen (map S.text words.now) result reader.old reader.new writer.old writer.new errors.old errors.new }
{
    let alloc = rt.alloc();
    let done = match read_words(alloc, words) {
        Ok(Asked::Replay(wanted)) => {
            let done = replay_tenants(rt, alloc, &wanted, reader, writer);
            // Dropped by a call, so that there is one way on, whether an export is asked for or not.
            drop(wanted);
            done
        }
        Ok(Asked::Serve(wanted)) => return serve_programs(rt, alloc, wanted, writer, errors),
        Ok(Asked::Check) => return check_input(alloc, reader, writer, errors),
        Ok(Asked::Load(tenant)) => {
            return load_input(rt, alloc, tenant.as_str(), reader, writer, errors);
        }
        Ok(Asked::Show(text)) => show_help(writer, text.as_str()),
        Err(Refusal::Words(text)) => return refuse(errors, text.as_str()),
        Err(Refusal::Memory) => Err(Fault::Memory),
    };
    match done {
        Ok(()) => 0,
        Err(fault) => fault.tell(errors),
    }
}

/// Tells why the words are refused, and answers the status for that.
fn refuse<E: Sink>(errors: &mut E, text: &str) -> u8
    ensures status { result ≡ 2 }
    ensures told { ShowsSome (E.seen errors.old) (E.seen errors.new) }
{
    if text.is_empty() {
        return Fault::Words.tell(errors);
    }
    let _ = show(errors, text);
    Fault::Words.status()
}

/// Shows help. An empty text is shown as the program's name.
fn show_help<W: Sink>(writer: &mut W, text: &str) -> Result<(), Fault>
    ensures shown { ShowsSome (W.seen writer.old) (W.seen writer.new) }
    ensures ok { OnOk result (ShowsSomeAll (W.seen writer.old) (W.seen writer.new)) }
    ensures err { IfErr result (λ fault. (fault ≡ Fault.Write) × EndsInFault (W.seen writer.old) (W.seen writer.new)) }
    ensures failed { (W.seen writer.old).failures < (W.seen writer.new).failures → IsErr result }
{
    if text.is_empty() {
        return show(writer, "itc_trace\n");
    }
    show(writer, text)
}
