//! Calls on a forwarding table, by its one writer. None waits: what can't be done yet is `Pending`, and goes on at the
//! next call.
ghost use Rattle.std.specs.Prelude.{◌≡◌, ◌⊎◌, IfErr, IfOk, Ok};
ghost use Rattle.std.specs.FinMap as map_of;
ghost use Rattle.capi.specs.Fibs.{Adds, AtFib, Clears, FindsReader, Gets, IsImpossible, IsOpened, Publishes, Removes, SetsHop};
ghost use Rattle.capi.specs.Fibs.{SetsPort, Settles, Walks, count_of, depth_of, done_of, got_of, live_fault_of};
ghost use Rattle.live_routes.specs.Ports.{IsPossible};

use crate::object::Object;
use crate::rings::Fault;
use crate::route_tables::fault;
use ipv4::Hop;
use live_routes::{Form, LiveFault, Port, RouteReader, RouteWriter, is_port, is_possible};
use lpm::RouteFault;
use std::alloc::Global;

/// A route as a walk shows it to C.
#[repr(C)]
#[derive(Clone, Copy)]
pub struct FibRoute {
    pub address: u32,
    pub depth: u32,
    pub hop: u32,
}

/// The fault for one of the writer's own.
fn live_fault(why: LiveFault) -> Fault
    ensures { result ≡ live_fault_of why }
{
    match why {
        LiveFault::BadDepth => Fault::Depth,
        LiveFault::BadHop => Fault::Hop,
        LiveFault::NoGroup => Fault::Groups,
        LiveFault::Memory => Fault::Memory,
        LiveFault::NoRoute => Fault::NoRoute,
        LiveFault::BadPort => Fault::Count,
        LiveFault::Pending => Fault::Pending,
    }
}

fn done(answer: Result<(), LiveFault>) -> Result<u32, Fault>
    ensures { result ≡ done_of answer }
{
    match answer {
        Ok(()) => Ok(0),
        Err(why) => Err(live_fault(why)),
    }
}

fn got(answer: Result<u32, RouteFault>) -> Result<u32, Fault>
    ensures { result ≡ got_of answer }
{
    match answer {
        Ok(hop) => Ok(hop),
        Err(why) => Err(fault(why)),
    }
}

/// A depth as 8 bits; one that is too large stays too large.
fn depth_of(depth: u32) -> u8
    ensures { result ≡ depth_of depth }
{
    depth.min(255) as u8
}

fn count_of(count: usize) -> u32
    ensures { result ≡ count_of count }
{
    count.min(0xffff_ffff) as u32
}

/// A table of this form without routes, with these ports and next hops. Errors: `Plan` unless `bits` is 16 or 24 and
/// there can be such ports and next hops; `Memory`.
pub(crate) fn made(
    alloc: Global,
    form: Form,
    bits: u32,
    groups: u32,
    ports: &[Port],
    hops: &[Hop],
) -> Result<RouteWriter<Hop, Port>, Fault>
    ensures bits { IfOk result (λ _. (bits ≡ 16) ⊎ (bits ≡ 24)) }
    ensures possible { IfOk result (λ _. IsPossible ports.now hops.now) }
    ensures opened { IfOk result (λ r. IsOpened r bits groups ports.now hops.now) }
    ensures refused { IfErr result
        (λ why. ((why ≡ Fault.Plan) × IsImpossible bits ports.now hops.now) ⊎ (why ≡ Fault.Memory)) }
{
    let first = match bits {
        16 => 16,
        24 => 24,
        _ => return Err(Fault::Plan),
    };
    if !is_possible(ports, hops) {
        return Err(Fault::Plan);
    }
    match RouteWriter::open(alloc, form, first, groups, hops, ports) {
        Ok(writer) => Ok(writer),
        Err(_) => Err(Fault::Memory),
    }
}

/// A reader of the table of a handle, for a second handle.
pub(crate) fn share(slot: &mut Option<Object>) -> Result<RouteReader<Hop, Port>, Fault>
    ensures { FindsReader result slot.old slot.new }
{
    match slot {
        Some(Object::Fib(writer)) => match writer.share() {
            Ok(reader) => Ok(reader),
            Err(_) => Err(Fault::Memory),
        },
        Some(_) => Err(Fault::Kind),
        None => Err(Fault::Empty),
    }
}

/// Adds a route, or changes the next hop of its prefix.
pub(crate) fn add(
    slot: &mut Option<Object>,
    address: u32,
    depth: u32,
    hop: u32,
) -> Result<u32, Fault>
    ensures { AtFib slot.old slot.new result (Adds result address depth hop) }
{
    match slot {
        Some(Object::Fib(writer)) => done(writer.add(address, depth_of(depth), hop)),
        Some(_) => Err(Fault::Kind),
        None => Err(Fault::Empty),
    }
}

/// Removes a route.
pub(crate) fn remove(slot: &mut Option<Object>, address: u32, depth: u32) -> Result<u32, Fault>
    ensures { AtFib slot.old slot.new result (Removes result address depth) }
{
    match slot {
        Some(Object::Fib(writer)) => done(writer.remove(address, depth_of(depth))),
        Some(_) => Err(Fault::Kind),
        None => Err(Fault::Empty),
    }
}

/// Removes all routes.
pub(crate) fn clear(slot: &mut Option<Object>) -> Result<u32, Fault>
    ensures { AtFib slot.old slot.new result (Clears result) }
{
    match slot {
        Some(Object::Fib(writer)) => done(writer.clear()),
        Some(_) => Err(Fault::Kind),
        None => Err(Fault::Empty),
    }
}

/// Changes a next hop.
pub(crate) fn set_hop(slot: &mut Option<Object>, number: u32, hop: Hop) -> Result<u32, Fault>
    ensures { AtFib slot.old slot.new result (SetsHop result number hop) }
{
    match slot {
        Some(Object::Fib(writer)) => done(writer.set_hop(number, hop)),
        Some(_) => Err(Fault::Kind),
        None => Err(Fault::Empty),
    }
}

fn set_port_in(writer: &mut RouteWriter<Hop, Port>, number: u32, port: Port) -> Result<u32, Fault>
    ensures { SetsPort result number port writer.old writer.new }
{
    if !is_port(&port) {
        return Err(Fault::Plan);
    }
    done(writer.set_port(number, port))
}

/// Changes a port.
pub(crate) fn set_port(slot: &mut Option<Object>, number: u32, port: Port) -> Result<u32, Fault>
    ensures { AtFib slot.old slot.new result (SetsPort result number port) }
{
    match slot {
        Some(Object::Fib(writer)) => set_port_in(writer, number, port),
        Some(_) => Err(Fault::Kind),
        None => Err(Fault::Empty),
    }
}

/// Publishes all changes at once.
pub(crate) fn publish(slot: &mut Option<Object>) -> Result<u32, Fault>
    ensures { AtFib slot.old slot.new result (Publishes result) }
{
    match slot {
        Some(Object::Fib(writer)) => done(writer.publish()),
        Some(_) => Err(Fault::Kind),
        None => Err(Fault::Empty),
    }
}

/// Goes on with the last publish.
pub(crate) fn settle(slot: &mut Option<Object>) -> Result<u32, Fault>
    ensures { AtFib slot.old slot.new result (Settles result) }
{
    match slot {
        Some(Object::Fib(writer)) => done(writer.settle()),
        Some(_) => Err(Fault::Kind),
        None => Err(Fault::Empty),
    }
}

/// How many changes readers don't see yet.
pub(crate) fn pending(slot: &mut Option<Object>) -> Result<u32, Fault>
    ensures { AtFib slot.old slot.new result (λ r s. (s ≡ r) × (result ≡ Ok (count_of r.pending))) }
{
    match slot {
        Some(Object::Fib(writer)) => Ok(count_of(writer.pending())),
        Some(_) => Err(Fault::Kind),
        None => Err(Fault::Empty),
    }
}

/// How many routes are prepared.
pub(crate) fn count(slot: &mut Option<Object>) -> Result<u32, Fault>
    ensures { AtFib slot.old slot.new result
        (λ r s. (s ≡ r) × (result ≡ Ok (count_of (map_of.len r.prepared.members)))) }
{
    match slot {
        Some(Object::Fib(writer)) => Ok(count_of(writer.fib().len())),
        Some(_) => Err(Fault::Kind),
        None => Err(Fault::Empty),
    }
}

/// The next hop's number of exactly this route.
pub(crate) fn get(slot: &mut Option<Object>, address: u32, depth: u32) -> Result<u32, Fault>
    ensures { AtFib slot.old slot.new result (Gets result address depth) }
{
    match slot {
        Some(Object::Fib(writer)) => got(writer.fib().get(address, depth_of(depth))),
        Some(_) => Err(Fault::Kind),
        None => Err(Fault::Empty),
    }
}

fn walk_in(
    writer: &RouteWriter<Hop, Port>,
    address: u32,
    depth: u32,
    place: &mut FibRoute,
) -> Result<u32, Fault>
    ensures { Walks result address depth place.old place.new writer.now writer.now }
{
    match writer.fib().next_route(address, depth_of(depth)) {
        Some(route) => {
            *place = FibRoute {
                address: route.address,
                depth: u32::from(route.depth),
                hop: route.hop,
            };
            Ok(0)
        }
        None => Err(Fault::NoRoute),
    }
}

/// The first route that isn't before this address and depth.
pub(crate) fn walk(
    slot: &mut Option<Object>,
    address: u32,
    depth: u32,
    place: &mut FibRoute,
) -> Result<u32, Fault>
    ensures walked { AtFib slot.old slot.new result (Walks result address depth place.old place.new) }
    ensures refused { IfErr result (λ _. place.new ≡ place.old) }
{
    match slot {
        Some(Object::Fib(writer)) => walk_in(writer, address, depth, place),
        Some(_) => Err(Fault::Kind),
        None => Err(Fault::Empty),
    }
}
