//! The commands with their options.
ghost use Rattle.std.specs.Prelude.{◌≡◌, false, IfOk};
ghost use Rattle.clap.specs.Words.{app_of, rule_of};
ghost use Rattle.clap.specs.declared.builder.Command.TheViews.{out-Command as fields_of};
ghost use Rattle.command_line.specs.Reading.{check_app, export_rule, limit_rule, load_app, port_rule, program_app, replay_app, serve_app, tenant_rule};

use crate::help::{
    CACHE_HELP, CHECK_HELP, EVENTS_HELP, HELP, LOAD_HELP, MESSAGES_HELP, PORT_HELP, REPLAY_HELP,
    SERVE_HELP, SESSIONS_HELP, TASKS_HELP, TENANT_HELP, TENANTS_HELP, WORKERS_HELP,
};
use clap::builder::ValueParser;
use clap::{Arg, ArgAction, Command};
use std::alloc::{AllocError, Global};
use trace_types::Limits;

/// How many comparisons are remembered if the words do not say it.
pub(crate) const DEFAULT_CACHE: u64 = 1024;

/// The most comparisons that may be remembered.
pub(crate) const MOST_CACHE: u64 = 65536;

/// The greatest port.
pub(crate) const MOST_PORT: u64 = 65535;

/// How many sessions are held at once if the words do not say it.
pub(crate) const DEFAULT_WORKERS: u64 = 4;

/// The most sessions that may be held at once.
pub(crate) const MOST_WORKERS: u64 = 32;

/// The most connections that may be taken. As many are taken if the words do not say it.
pub(crate) const MOST_SESSIONS: u64 = 1048576;

/// The program's command line.
pub(crate) fn command<'a>(alloc: Global) -> Result<Command<'a>, AllocError>
    ensures { IfOk result (λ command. app_of command ≡ program_app) }
{
    Command::new(alloc, "itc_trace")
        .bin_name("itc_trace")?
        .version("0.1.0")
        .about("Collects the events of tasks, and answers how they are ordered")
        .after_help(HELP)
        .no_binary_name(true)
        .subcommand_required(true)
        .subcommand(replay_command(alloc)?)?
        .subcommand(serve_command(alloc)?)?
        .subcommand(check_command(alloc))?
        .subcommand(load_command(alloc)?)
}

/// The command `replay`.
fn replay_command<'a>(alloc: Global) -> Result<Command<'a>, AllocError>
    ensures app { IfOk result (λ command. app_of command ≡ replay_app) }
    ensures local { IfOk result (λ command. (fields_of command).has_globals ≡ false) }
{
    Command::new(alloc, "replay")
        .about("Replays lines of requests from standard input, and writes a line for each")
        .after_help(REPLAY_HELP)
        .arg(limit(alloc, "events", EVENTS_HELP, Limits::MOST_EVENTS))?
        .arg(limit(alloc, "tasks", TASKS_HELP, Limits::MOST_TASKS))?
        .arg(limit(alloc, "messages", MESSAGES_HELP, Limits::MOST_MESSAGES))?
        .arg(limit(alloc, "cache", CACHE_HELP, MOST_CACHE))?
        .arg(export(alloc))?
        .arg(tenants(alloc, TENANTS_HELP))
}

/// The command `serve`.
fn serve_command<'a>(alloc: Global) -> Result<Command<'a>, AllocError>
    ensures app { IfOk result (λ command. app_of command ≡ serve_app) }
    ensures local { IfOk result (λ command. (fields_of command).has_globals ≡ false) }
{
    Command::new(alloc, "serve")
        .about("Takes requests of programs that connect, and answers each by a line")
        .after_help(SERVE_HELP)
        .arg(port(alloc))?
        .arg(limit(alloc, "workers", WORKERS_HELP, MOST_WORKERS))?
        .arg(limit(alloc, "sessions", SESSIONS_HELP, MOST_SESSIONS))?
        .arg(limit(alloc, "events", EVENTS_HELP, Limits::MOST_EVENTS))?
        .arg(limit(alloc, "tasks", TASKS_HELP, Limits::MOST_TASKS))?
        .arg(limit(alloc, "messages", MESSAGES_HELP, Limits::MOST_MESSAGES))?
        .arg(limit(alloc, "cache", CACHE_HELP, MOST_CACHE))?
        .arg(tenants(alloc, TENANTS_HELP))
}

/// The command `check`.
fn check_command<'a>(alloc: Global) -> Command<'a>
    ensures app { app_of result ≡ check_app }
    ensures local { (fields_of result).has_globals ≡ false }
{
    Command::new(alloc, "check")
        .about("Checks an export from standard input, and writes one line: yes, or no and why")
        .after_help(CHECK_HELP)
}

/// The command `load`.
fn load_command<'a>(alloc: Global) -> Result<Command<'a>, AllocError>
    ensures app { IfOk result (λ command. app_of command ≡ load_app) }
    ensures local { IfOk result (λ command. (fields_of command).has_globals ≡ false) }
{
    Command::new(alloc, "load")
        .about("Reads an export from standard input, and writes the requests that make it")
        .after_help(LOAD_HELP)
        .arg(tenants(alloc, TENANT_HELP))
}

/// The argument for tenants, with its help.
fn tenants<'a>(alloc: Global, help: &'a str) -> Arg<'a>
    ensures rule { rule_of result ≡ tenant_rule }
    ensures local { result.global ≡ false }
{
    Arg::new(alloc, "TENANT")
        .help(help)
        .required(true)
        .num_args(1..)
        .action(ArgAction::Append)
}

/// The option of this name for a limit, with its help, and the most that it may be.
fn limit<'a>(alloc: Global, name: &'a str, help: &'a str, most: u64) -> Arg<'a>
    ensures rule { rule_of result ≡ limit_rule name.entry.now most }
    ensures local { result.global ≡ false }
{
    Arg::new(alloc, name)
        .long(name)
        .value_name("N")
        .help(help)
        .value_parser(ValueParser::unsigned(1, most))
        .action(ArgAction::Set)
}

/// The option for the port.
fn port<'a>(alloc: Global) -> Arg<'a>
    ensures rule { rule_of result ≡ port_rule }
    ensures local { result.global ≡ false }
{
    limit(alloc, "port", PORT_HELP, MOST_PORT).required(true)
}

/// The option for the tenant to be exported.
fn export<'a>(alloc: Global) -> Arg<'a>
    ensures rule { rule_of result ≡ export_rule }
    ensures local { result.global ≡ false }
{
    Arg::new(alloc, "export")
        .long("export")
        .value_name("NAME")
        .help("The tenant whose export is written at the end, in place of all replies")
        .action(ArgAction::Set)
}
