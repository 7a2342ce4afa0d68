//! What the words ask for.
ghost use Rattle.std.specs.Prelude.{◌≡◌, IsTrue, ℕ, [], Some, Err, map, option_map, IfOk, IfErr, IfSome, string_bytes};
ghost use Rattle.clap.specs.Words.{found_of, kind_of, rows_of, subcommand_rows_of};
ghost use Rattle.trace_types.specs.text.Name.{Text, is_between};
ghost use Rattle.command_line.specs.Demand.{AskedReplay, AskedService, Demand, ToLoad, ToReplay, ToServe, asked_in};
ghost use Rattle.command_line.specs.Reading.{Agrees, FindsTenants, FindsLimits, Has, IsAnswer, IsToldOf, Loading, ReadsWords, Serving, amount_in, demand_of, export_found, found_in, is_found, kinds_of, number_found, work_found, work_of, work_with};

use crate::demand::{Asked, Replay, Serve};
use crate::options::{
    DEFAULT_CACHE, DEFAULT_WORKERS, MOST_CACHE, MOST_PORT, MOST_SESSIONS, MOST_WORKERS, command,
};
use clap::error::ErrorKind;
use clap::{ArgMatches, Error};
use std::alloc::{AllocError, AllocFailed, Global};
use std::convert::AsStr;
use trace_types::Limits;

/// Why the words are not followed.
#[derive(Debug, Drop, thiserror::Error)]
pub enum Refusal {
    /// The words are refused with this text, which may be empty.
    #[error("{0}")]
    Words(String),
    /// The call ran out of memory.
    #[error("no memory")]
    Memory,
}

impl From<AllocError> for Refusal {
    ghost use Rattle.command_line.specs.declared.parse.Refusal.TheVariants.{Memory};

    ghost from_gives = { λ _ refusal. refusal ≡ Memory };

    fn from(_refused: AllocError) -> Refusal {
        Refusal::Memory
    }
}

impl<T: Drop> From<AllocFailed<T>> for Refusal {
    ghost use Rattle.command_line.specs.declared.parse.Refusal.TheVariants.{Memory};

    ghost from_gives = { λ _ refusal. refusal ≡ Memory };

    fn from(_refused: AllocFailed<T>) -> Refusal {
        Refusal::Memory
    }
}

/// What the words after the program's name ask for.
///
/// They are one of these commands, with what follows it in any order. An option stands once at most, and N is a whole
/// number in its range.
///
/// | Command | What follows |
/// |---|---|
/// | `replay` | 1 or more tenants, `--events N`, `--tasks N`, `--messages N`, `--cache N`, `--export NAME` |
/// | `serve` | `--port N` and 1 or more tenants, the options with numbers of `replay`, `--workers N`, `--sessions N` |
/// | `check` | Nothing |
/// | `load` | 1 tenant |
pub fn read_words<S: AsStr>(alloc: Global, words: &[S]) -> Result<Asked, Refusal>
    // Limits and tenants are read as they stand, unless the call runs out of memory.
    ensures asked { IfSome (asked_in (map S.text words.now)) (λ asked. ReadsWords asked result) }
    // Whatever the words are, what is asked for is what was found among them.
    ensures found { IfOk result (λ asked. IfSome (demand_of asked) (Agrees (found_in (map S.text words.now)))) }
    // Whatever the words are, help is shown only if it is asked for.
    ensures kinds { IsAnswer (kinds_of (map S.text words.now)) (work_of (map S.text words.now)) result }
{
    match command(alloc)?.try_get_matches_from(words) {
        Ok(matches) => asked_of(alloc, &matches),
        Err(error) => shown(alloc, &error),
    }
}

/// What was found.
fn asked_of(alloc: Global, matches: &ArgMatches) -> Result<Asked, Refusal>
    ensures asked { (asked : Demand) → Has (subcommand_rows_of matches.now) asked → ReadsWords asked result }
    ensures found { IfOk result (λ asked. IfSome (demand_of asked) (Agrees (subcommand_rows_of matches.now))) }
    ensures kinds { IsAnswer [] (work_found (subcommand_rows_of matches.now)) result }
{
    if is_named(matches, "check") {
        return Ok(Asked::Check);
    }
    if is_named(matches, "load") {
        return load_of(alloc, matches);
    }
    if is_named(matches, "serve") {
        return serve_of(alloc, matches);
    }
    replay_of(alloc, matches)
}

/// The replay that was found.
fn replay_of(alloc: Global, matches: &ArgMatches) -> Result<Asked, Refusal>
    ensures asked { (asked : AskedReplay) → Has (subcommand_rows_of matches.now) (ToReplay asked) → ReadsWords (ToReplay asked) result }
    ensures found { IfOk result (λ asked. IfSome (demand_of asked) (Agrees (subcommand_rows_of matches.now))) }
    ensures work { IsAnswer [] (work_with (export_found (subcommand_rows_of matches.now))) result }
{
    let tenants = tenants_of(alloc, matches)?;
    let export = export_of(alloc, matches)?;
    match (
        limits_of(matches),
        number_of(matches, "cache", DEFAULT_CACHE, MOST_CACHE),
    ) {
        (Some(limits), Some(cache)) => Ok(Asked::Replay(Replay {
            limits,
            cache,
            tenants,
            export,
        })),
        _ => Err(Refusal::Words(String::new(alloc))),
    }
}

/// The load that was found.
fn load_of(alloc: Global, matches: &ArgMatches) -> Result<Asked, Refusal>
    ensures asked { (tenant : Text) → Has (subcommand_rows_of matches.now) (ToLoad tenant) → ReadsWords (ToLoad tenant) result }
    ensures found { IfOk result (λ asked. IfSome (demand_of asked) (Agrees (subcommand_rows_of matches.now))) }
    ensures work { IsAnswer [] Loading result }
{
    let tenants = tenants_of(alloc, matches)?;
    match tenants.as_slice() {
        [tenant] => Ok(Asked::Load(String::from_str(alloc, tenant.as_str())?)),
        _ => Err(Refusal::Words(String::new(alloc))),
    }
}

/// The service that was found.
fn serve_of(alloc: Global, matches: &ArgMatches) -> Result<Asked, Refusal>
    ensures asked { (asked : AskedService) → Has (subcommand_rows_of matches.now) (ToServe asked) → ReadsWords (ToServe asked) result }
    ensures found { IfOk result (λ asked. IfSome (demand_of asked) (Agrees (subcommand_rows_of matches.now))) }
    ensures work { IsAnswer [] Serving result }
{
    let tenants = tenants_of(alloc, matches)?;
    let limits = limits_of(matches);
    let cache = number_of(matches, "cache", DEFAULT_CACHE, MOST_CACHE);
    let port = number_of(matches, "port", 0, MOST_PORT);
    let workers = number_of(matches, "workers", DEFAULT_WORKERS, MOST_WORKERS);
    let sessions = number_of(matches, "sessions", MOST_SESSIONS, MOST_SESSIONS);
    match (limits, cache, port, workers, sessions) {
        (Some(limits), Some(cache), Some(port), Some(workers), Some(sessions)) => {
            Ok(Asked::Serve(Serve {
                port,
                workers,
                sessions,
                limits,
                cache,
                tenants,
            }))
        }
        _ => Err(Refusal::Words(String::new(alloc))),
    }
}

/// Whether the command of this name was found.
fn is_named(matches: &ArgMatches, name: &str) -> bool
    ensures { result ≡ is_found name.now (subcommand_rows_of matches.now) }
{
    matches.subcommand_matches(name).is_some()
}

/// The tenants that were found.
fn tenants_of(alloc: Global, matches: &ArgMatches) -> Result<Vec<String>, Refusal>
    ensures ok { IfOk result (λ tenants. FindsTenants (subcommand_rows_of matches.now) (map string_bytes tenants.items)) }
    ensures err { IfErr result (λ refusal. refusal ≡ Refusal.Memory) }
{
    let Some((_, replay)) = matches.subcommand() else {
        return Ok(Vec::new(alloc));
    };
    copy_texts(alloc, replay.get_strs("TENANT").unwrap_or(&[]))
}

/// The tenant to be exported, if one was found.
fn export_of(alloc: Global, matches: &ArgMatches) -> Result<Option<String>, Refusal>
    ensures ok { IfOk result (λ export. option_map string_bytes export ≡ export_found (subcommand_rows_of matches.now)) }
    ensures err { IfErr result (λ refusal. refusal ≡ Refusal.Memory) }
{
    let Some((_, replay)) = matches.subcommand() else {
        return Ok(None);
    };
    match replay.get_str("export") {
        Some(name) => Ok(Some(String::from_str(alloc, name)?)),
        None => Ok(None),
    }
}

/// The limits that were found, or `None` if one is out of its range.
fn limits_of(matches: &ArgMatches) -> Option<Limits>
    ensures { FindsLimits (subcommand_rows_of matches.now) result }
{
    let (_, replay) = matches.subcommand()?;
    Limits::read(
        amount_of(replay, "events", Limits::DEFAULT_EVENTS),
        amount_of(replay, "tasks", Limits::DEFAULT_TASKS),
        amount_of(replay, "messages", Limits::DEFAULT_MESSAGES),
    )
}

/// The number of the option of this name, or the default if it was not used. It is `None` outside 1 to `most`.
fn number_of(matches: &ArgMatches, name: &str, default: u64, most: u64) -> Option<u64>
    ensures found { (number : ℕ) → number_found name.now default most (subcommand_rows_of matches.now) ≡ Some number → result ≡ Some number }
    ensures in_range { IfSome result (λ number. IsTrue (is_between 1 most number)) }
{
    let (_, found) = matches.subcommand()?;
    let number = amount_of(found, name, default);
    if 1 <= number && number <= most {
        Some(number)
    } else {
        None
    }
}

/// The number of the option of this name, or the default if it was not used.
fn amount_of(replay: &ArgMatches, name: &str, default: u64) -> u64
    ensures { (number : ℕ) → amount_in name.now default (rows_of (found_of replay.now)) ≡ Some number → result ≡ number }
{
    replay.get_one::<u64>(name).unwrap_or(default)
}

/// Copies of the texts.
fn copy_texts(alloc: Global, texts: &[&str]) -> Result<Vec<String>, Refusal>
    ensures ok { IfOk result (λ copies. map string_bytes copies.items ≡ map (λ text. text.now) texts.now) }
    ensures err { IfErr result (λ refusal. refusal ≡ Refusal.Memory) }
{
    let mut copies = Vec::new(alloc);
    for text in texts {
        copies.push(String::from_str(alloc, text)?)?;
    }
    Ok(copies)
}

/// The text of an error that clap made: help, or why the words are refused.
fn shown(alloc: Global, error: &Error) -> Result<Asked, Refusal>
    ensures memory { kind_of error.now ≡ ErrorKind.OutOfMemory → result ≡ Err Refusal.Memory }
    ensures told { IsToldOf (kind_of error.now) result }
{
    let kind = error.kind();
    if kind == ErrorKind::OutOfMemory {
        return Err(Refusal::Memory);
    }
    let text = format!(in alloc; "{error}")?;
    if kind == ErrorKind::DisplayHelp || kind == ErrorKind::DisplayVersion {
        Ok(Asked::Show(text))
    } else {
        Err(Refusal::Words(text))
    }
}
