//! The trace collector's program. It replays lines of requests and writes the replies, serves programs that connect, and
//! checks or loads an export.
//!
//! | Words | What they do |
//! |---|---|
//! | `replay TENANT..` | Answers the lines of 1 to 16 tenants, each of which has the limits for itself |
//! | `replay --export NAME TENANT..` | Does the lines, and writes the export of one tenant |
//! | `serve --port N TENANT..` | Answers programs that connect |
//! | `check` | Says whether an export is right |
//! | `load TENANT` | Writes the requests that an export comes from |
//! | `help`, `help replay`, `help serve`, `help check`, `help load` | Tells of all options |
//!
//! `main` hands its words and the standard streams to [`start`], and ends with the status that it answers. `start` runs
//! what the words after the first ask. `run` of `collector` says what comes of them.
#![tactic(auto)]

ghost use Rattle.std.specs.Prelude.{◌≡◌, drop, map, IfOk, IfErr, string_bytes};
ghost use Rattle.std.specs.IoError.{error_kind};
ghost use Rattle.std.specs.Process.{exit_status};
ghost use Rattle.collector.specs.Fault.{fault_of_words, status_of};
ghost use Rattle.collector.specs.Program.{IsUntouched, TellsFault};
ghost use Rattle.collector.specs.Runs.{Runs};

use collector::{Fault, run};
use line_protocol::{Buffered, FromReader, IntoWriter, Sink, Source};
use std::io::ErrorKind;
use std::net::{Net, TcpListener, TcpStream};
use std::process::ExitCode;
use std::sync::Wait;
use std::thread::Threads;
use std::{env, io};

fn main(rt: HostRuntime) -> ExitCode {
    let mut errors = IntoWriter::new(rt.stderr());
    let mut reader = FromReader::new(rt.stdin());
    match Buffered::new(rt.alloc(), IntoWriter::new(rt.stdout())) {
        Ok(mut writer) => start(&rt, all_words(&rt), &mut reader, &mut writer, &mut errors),
        Err(_) => ExitCode::from(Fault::Memory.tell(&mut errors)),
    }
}

/// The words that the program was given. It is an error if one of them is no text, or if it runs out of memory.
///
/// No contract of the runtime says which words it gives, so none here can.
fn all_words(rt: &HostRuntime) -> io::Result<Vec<String>> {
    let words = env::args(rt)?.collect(rt.alloc())?;
    Ok(words)
}

/// Runs what these words ask. The first is the program's own name. The program ends with the status of the run.
fn start<T, R: Source, W: Sink, E: Sink>(
    rt: &T,
    words: io::Result<Vec<String>>,
    reader: &mut R,
    writer: &mut W,
    errors: &mut E,
) -> ExitCode
where
    T: AllocGlobal + Threads + Wait + Sync + Net<Listener = TcpListener, Stream = TcpStream>,
    ensures run { IfOk words (λ words. Runs R.seen W.seen E.seen (map string_bytes (drop 1 words.items))
        (exit_status result) reader.old reader.new writer.old writer.new errors.old errors.new) }
    ensures no_words { IfErr words (λ error. (exit_status result ≡ status_of (fault_of_words (error_kind error)))
        × TellsFault (E.seen errors.old) (E.seen errors.new) (fault_of_words (error_kind error))
        × IsUntouched reader.old reader.new writer.old writer.new) }
{
    let status = match words {
        Ok(words) => run(rt, after_the_first(&words), reader, writer, errors),
        Err(error) => fault_of(error.kind()).tell(errors),
    };
    ExitCode::from(status)
}

/// All words but the first.
fn after_the_first(words: &[String]) -> &[String]
    ensures { result.now ≡ drop 1 words.now }
{
    if words.is_empty() {
        return words;
    }
    &words[1..]
}

/// Why there are no words.
fn fault_of(kind: ErrorKind) -> Fault
    ensures { result ≡ fault_of_words kind }
{
    match kind {
        ErrorKind::OutOfMemory => Fault::Memory,
        _ => Fault::Words,
    }
}
