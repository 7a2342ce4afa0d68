//! What can be asked for.
ghost use Rattle.std.specs.Prelude.{IsTrue};
ghost use Rattle.trace_types.specs.text.Name.{is_between};

use trace_types::Limits;

/// What the words ask for.
#[derive(Drop)]
pub enum Asked {
    /// To replay lines, or to write an export after them.
    Replay(Replay),
    /// To serve programs that connect.
    Serve(Serve),
    /// The check of an export.
    Check,
    /// To load an export, with its requests to this tenant.
    Load(String),
    /// To show this text, which is help or the version.
    Show(String),
}

/// A replay that is asked for.
#[derive(Drop)]
pub struct Replay {
    /// The limits that each of the tenants has.
    pub limits: Limits,
    /// How many comparisons the cache of all tenants remembers: 1 to 65536.
    pub cache: u64,
    /// The tenants as they are written, which may be no names.
    pub tenants: Vec<String>,
    /// The tenant whose export is written in place of replies.
    pub export: Option<String>,
    ghost in_range: { IsTrue (is_between 1 65536 cache) },
}

/// A service that is asked for.
#[derive(Drop)]
pub struct Serve {
    /// The port of 127.0.0.1 at which programs connect: 1 to 65535.
    pub port: u64,
    /// How many sessions are held at once: 1 to 32.
    pub workers: u64,
    /// After how many connections no more are taken: 1 to 1048576.
    pub sessions: u64,
    /// The limits that each of the tenants has.
    pub limits: Limits,
    /// How many comparisons the cache of all tenants remembers: 1 to 65536.
    pub cache: u64,
    /// The tenants as they are written, which may be no names.
    pub tenants: Vec<String>,
    ghost cache_in_range: { IsTrue (is_between 1 65536 cache) },
    ghost port_in_range: { IsTrue (is_between 1 65535 port) },
    ghost workers_in_range: { IsTrue (is_between 1 32 workers) },
    ghost sessions_in_range: { IsTrue (is_between 1 1048576 sessions) },
}
