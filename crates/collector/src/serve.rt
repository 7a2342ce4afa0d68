//! How programs that connect are served.
ghost use Rattle.std.specs.Prelude.{◌≡◌, ◌≢◌, ◌<◌, true, IfErr, IfOk, OnOk, map, string_bytes};
ghost use Rattle.command_line.specs.Demand.{ToServe};
ghost use Rattle.command_line.specs.Reading.{service_of};
ghost use Rattle.trace_session.specs.Hubs.{IsHubOf};
ghost use Rattle.collector.specs.Fault.{status_of};
ghost use Rattle.collector.specs.Program.{RefusesTenants, TellsFault, TellsOfTenants};
ghost use Rattle.collector.specs.Serving.{Serves, ServesInPart, line_of_counts, line_of_port};
ghost use Rattle.collector.specs.Taking.{is_taken};

use crate::fault::Fault;
use crate::show::show;
use command_line::Serve;
use line_protocol::Sink;
use std::alloc::{AllocError, Global};
use std::net::{Net, TcpListener, TcpStream};
use std::sync::Wait;
use std::thread::Threads;
use tcp_door::TcpDoor;
use trace_session::{Hub, OpenGate, ServeCounts, serve};
use trace_types::TenantNames;

/// Serves what is asked for, and answers the status.
pub(crate) fn serve_programs<T, W: Sink, E: Sink>(
    rt: &T,
    alloc: Global,
    wanted: Serve,
    writer: &mut W,
    errors: &mut E,
) -> u8
where
    T: Threads + Wait + Sync + Net<Listener = TcpListener, Stream = TcpStream>,
    ensures done { result < 2 → (result ≡ 0) × (errors.new ≡ errors.old) × Serves wanted.port wanted.sessions (W.seen writer.old) (W.seen writer.new) }
    ensures taken { RefusesTenants (is_taken (ToServe (service_of wanted))) (E.seen errors.old) (E.seen errors.new) result }
    ensures refused { result ≡ 2 → (writer.new ≡ writer.old) × TellsFault (E.seen errors.old) (E.seen errors.new) Fault.Tenants }
    ensures broken_off { 2 < result → (fault : Fault) × (result ≡ status_of fault)
        × ServesInPart fault wanted.port (W.seen writer.old) (W.seen writer.new) × TellsFault (E.seen errors.old) (E.seen errors.new) fault }
{
    match serve_tenants(rt, alloc, &wanted, writer) {
        Ok(()) => 0,
        Err(fault) => fault.tell(errors),
    }
}

/// Serves the tenants until as many programs connected as were asked for and all their sessions ended.
fn serve_tenants<T, W: Sink>(
    rt: &T,
    alloc: Global,
    wanted: &Serve,
    writer: &mut W,
) -> Result<(), Fault>
where
    T: Threads + Wait + Sync + Net<Listener = TcpListener, Stream = TcpStream>,
    ensures ok { OnOk result (Serves wanted.now.port wanted.now.sessions (W.seen writer.old) (W.seen writer.new)) }
    ensures taken { OnOk result (is_taken (ToServe (service_of wanted.now)) ≡ true) }
    ensures err { IfErr result (λ fault. ServesInPart fault wanted.now.port (W.seen writer.old) (W.seen writer.new)) }
    ensures tenants { IfErr result (λ fault. TellsOfTenants fault (is_taken (ToServe (service_of wanted.now)))) }
    ensures refused { IfErr result (λ fault. status_of fault ≡ 2 → writer.new ≡ writer.old) }
{
    let names = TenantNames::read(&wanted.tenants).ok_or(Fault::Tenants)?;
    let hub = Hub::new(rt, alloc, names.as_slice(), wanted.limits, wanted.cache)?;
    let served = serve_hub(rt, alloc, &hub, wanted, writer);
    // The program ends next, as after a replay.
    hub.close_at_exit(rt);
    served
}

/// Opens the door and tells so, serves the hub to those who connect, and tells how many there were. The hub has the tenants
/// and the limits that are asked for.
fn serve_hub<T, W: Sink>(
    rt: &T,
    alloc: Global,
    hub: &Hub,
    wanted: &Serve,
    writer: &mut W,
) -> Result<(), Fault>
where
    T: Threads + Wait + Sync + Net<Listener = TcpListener, Stream = TcpStream>,
    requires hub { IsHubOf (map string_bytes wanted.now.tenants.items) wanted.now.limits hub.now }
    ensures ok { OnOk result (Serves wanted.now.port wanted.now.sessions (W.seen writer.old) (W.seen writer.new)) }
    ensures err { IfErr result (λ fault. ServesInPart fault wanted.now.port (W.seen writer.old) (W.seen writer.new)) }
    ensures other { IfErr result (λ fault. fault ≢ Fault.Tenants) }
{
    let line = port_line(alloc, wanted.port).map_err(|_| Fault::Memory)?;
    let mut door = TcpDoor::open(rt, alloc, wanted.port as u16, wanted.sessions)?;
    show(writer, line.as_str())?;
    let counts = serve(
        rt,
        alloc,
        hub,
        &mut door,
        wanted.workers as usize,
        &OpenGate,
    )?;
    let line = counts_line(alloc, counts).map_err(|_| Fault::Memory)?;
    show(writer, line.as_str())
}

/// The line that tells that programs can connect to this port.
fn port_line(alloc: Global, port: u64) -> Result<String, AllocError>
    ensures { IfOk result (λ line. string_bytes line ≡ line_of_port port) }
{
    format!(in alloc; "listening {port}\n")
}

/// The line that tells what was served.
fn counts_line(alloc: Global, counts: ServeCounts) -> Result<String, AllocError>
    ensures { IfOk result (λ line. string_bytes line ≡ line_of_counts counts) }
{
    let ServeCounts { sessions, faults } = counts;
    format!(in alloc; "served {sessions} faults {faults}\n")
}
