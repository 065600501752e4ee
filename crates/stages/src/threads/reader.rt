//! The reader of a run in threads: it reads each record into free segments, and sends it to the workers.
ghost use Rattle.std.specs.Prelude.{◌≡◌, ◌≤◌, ◌<◌, ◌⊎◌, ◌*◌, ◌+◌, ◌-◌, max, ℕ, [], length, IfOk, IfErr};
ghost use Rattle.mbuf.specs.Chain.{space_of};
ghost use Rattle.run_one.specs.Begun.{GoesBy, HasInput};
ghost use Rattle.stages.specs.Custody.{HoldsAll, HoldsFor, in_chain, in_items, in_numbers};
ghost use Rattle.stages.specs.Feeding.{WhyUnfed};
ghost use Rattle.stages.specs.Numbers.{item_numbers};

use crate::stage_fault::StageFault;
use crate::threads::idle::Idle;
use crate::threads::item::RingItem;
use crate::threads::reader_outcome::ReaderOutcome;
use crate::threads::ring_access::RingAccess;
use crate::threads::rings::{FREE, INPUT, SPAN};
use crate::threads::segments::{free_chain, link};
use crate::threads::unused::Unused;
use burst::Burst;
use mbuf::Chain;
use pcapio::Reader;
use run_one::{InputTotals, NextRecord, ReadState, RunFault, look, read_record};
use settings::Settings;
use stages_laws::Run;
use std::io::Read;
use std::sync::Wait;
use std::time::Clock;

/// How many segments a record takes: enough for its bytes, and at least one.
fn segments_of(captured: usize, room: usize) -> usize
    requires room { 0 < room }
    requires small { room ≤ 65536 }
    requires fits { captured ≤ 64 * room }
    ensures nonzero { 0 < result }
    ensures at_most { result ≤ 64 }
    ensures enough { captured ≤ result * room }
    ensures least { (result ≡ 1) ⊎ ((result - 1) * room < captured) }
{
    if captured == 0 {
        return 1;
    }
    (captured - 1) / room + 1
}

/// Prepares for asking for segments again: puts the packets that wait to be put together, or waits a little if there
/// are none.
fn make_way<J: Run, T: Wait + Clock>(
    rt: &T,
    access: &mut RingAccess<'_, RingItem<J>>,
    batch: &mut Burst<RingItem<J>, SPAN>,
    idle: &Idle,
) -> Result<(), StageFault>
    requires yours { HoldsAll item_numbers access.old.hand (in_items batch.old) }
    ensures kept { (others : ℕ → ℕ)
        → HoldsAll item_numbers access.old.hand (λ b. in_items batch.old b + others b)
        → HoldsAll item_numbers access.new.hand (λ b. in_items batch.new b + others b) }
{
    if batch.is_empty() {
        idle.wait(rt);
        return Ok(());
    }
    access.send(rt, INPUT, batch)
}

/// Puts all segments of a list on the ring of free ones, after a test that they are single ones and the hand's own.
fn free_tested<J: Run, T: Wait + Clock>(
    rt: &T,
    access: &mut RingAccess<'_, RingItem<J>>,
    list: &mut Burst<RingItem<J>, SPAN>,
) -> Result<(), StageFault>
    ensures left { IfOk result (λ _. list.new ≡ []) }
    ensures kept { (others : ℕ → ℕ)
        → HoldsAll item_numbers access.old.hand (λ b. in_items list.old b + others b)
        → HoldsAll item_numbers access.new.hand (λ b. in_items list.new b + others b) }
    ensures none { HoldsAll item_numbers access.new.hand (λ _. 0) }
{
    if !access.may_send(FREE, list) {
        return Err(StageFault::Window);
    }
    access.send(rt, FREE, list)
}

/// Puts an unused segment on the ring of free ones, and more of them, at most `n` together, as long as those in use are
/// too few for a record that takes `each`. Before this it puts the packets that wait to be put together, and the
/// segments that it has in stock: the test whether the hand may put the unused ones doesn't cover these.
// not inlined: the list would be filled with zeros for each record
#[inline(never)]
fn put_with<J: Run, T: Wait + Clock>(
    rt: &T,
    access: &mut RingAccess<'_, RingItem<J>>,
    batch: &mut Burst<RingItem<J>, SPAN>,
    stock: &mut Burst<RingItem<J>, SPAN>,
    unused: &mut Unused<J>,
    first: RingItem<J>,
    n: usize,
    each: usize,
    short: bool,
) -> Result<(), StageFault>
    requires at_most { n ≤ 256 }
    requires each { each ≤ 64 }
    requires yours { HoldsFor access.old.hand batch.old stock.old }
    ensures kept { HoldsFor access.new.hand batch.new stock.new }
{
    let mut list = Burst::<RingItem<J>, SPAN>::new();
    list.push(first);
    for _i in 1..n {
        match unused.take(each, short) {
            Some(segment) => list.push(segment),
            None => (),
        }
    }
    access.send(rt, INPUT, batch)?;
    free_tested(rt, access, stock)?;
    free_tested(rt, access, &mut list)
}

/// Puts unused segments on the ring of free ones, if those in use are too few: at most `n`, for a record that takes
/// `each`. Returns whether it put some.
fn put_unused<J: Run, T: Wait + Clock>(
    rt: &T,
    access: &mut RingAccess<'_, RingItem<J>>,
    batch: &mut Burst<RingItem<J>, SPAN>,
    stock: &mut Burst<RingItem<J>, SPAN>,
    unused: &mut Unused<J>,
    n: usize,
    each: usize,
    short: bool,
) -> Result<bool, StageFault>
    requires at_most { n ≤ 256 }
    requires each { each ≤ 64 }
    requires yours { HoldsFor access.old.hand batch.old stock.old }
    ensures kept { HoldsFor access.new.hand batch.new stock.new }
{
    let Some(first) = unused.take(each, short) else {
        return Ok(false);
    };
    put_with(rt, access, batch, stock, unused, first, n, each, short)?;
    Ok(true)
}

/// One free segment, as soon as there is one: from those taken before, or from at most `ahead` that are then taken from
/// their ring together; unused ones may be put there.
fn obtain_one<J: Run, T: Wait + Clock>(
    rt: &T,
    access: &mut RingAccess<'_, RingItem<J>>,
    batch: &mut Burst<RingItem<J>, SPAN>,
    stock: &mut Burst<RingItem<J>, SPAN>,
    unused: &mut Unused<J>,
    ahead: usize,
) -> Result<Chain, StageFault>
    requires at_most { ahead ≤ 256 }
    requires yours { HoldsFor access.old.hand batch.old stock.old }
    ensures kept { IfOk result (λ chain. HoldsAll item_numbers access.new.hand
        (λ b. in_chain chain b + (in_items batch.new b + in_items stock.new b))) }
    ensures still { HoldsFor access.new.hand batch.new stock.new }
{
    let idle = Idle::new();
    for _ in rt.forever() {
        match stock.pop() {
            Some(item) => return free_chain(item),
            None => (),
        }
        access.receive(rt, FREE, ahead, stock)?;
        if !stock.is_empty() {
            continue;
        }
        // after a wait in vain only one
        let short = idle.is_long();
        let n = if short { 1 } else { ahead };
        if !put_unused(rt, access, batch, stock, unused, n, 1, short)? {
            make_way(rt, access, batch, &idle)?;
        }
    }
    unreachable!()
}

/// `n` free segments, linked to one chain, as soon as their ring has that many; unused ones may be put there.
fn obtain_many<J: Run, T: Wait + Clock>(
    rt: &T,
    access: &mut RingAccess<'_, RingItem<J>>,
    batch: &mut Burst<RingItem<J>, SPAN>,
    stock: &mut Burst<RingItem<J>, SPAN>,
    unused: &mut Unused<J>,
    n: usize,
) -> Result<Chain, StageFault>
    requires at_most { n ≤ 64 }
    requires yours { HoldsFor access.old.hand batch.old stock.old }
    ensures kept { IfOk result (λ chain. HoldsAll item_numbers access.new.hand
        (λ b. in_chain chain b + (in_items batch.new b + in_items stock.new b))) }
    ensures still { HoldsFor access.new.hand batch.new stock.new }
{
    let idle = Idle::new();
    let mut got = Burst::<RingItem<J>, SPAN>::new();
    for _ in rt.forever() {
        got.clear();
        if access.get(rt, n, &mut got)? {
            return link(&mut got).ok_or(StageFault::Window);
        }
        if !put_unused(rt, access, batch, stock, unused, n, n, idle.is_long())? {
            make_way(rt, access, batch, &idle)?;
        }
    }
    unreachable!()
}

/// Free segments for a record of `captured` bytes, as soon as there are enough. Before waiting for them, puts the
/// packets that wait to be put together.
fn obtain<J: Run, T: Wait + Clock>(
    rt: &T,
    access: &mut RingAccess<'_, RingItem<J>>,
    batch: &mut Burst<RingItem<J>, SPAN>,
    stock: &mut Burst<RingItem<J>, SPAN>,
    unused: &mut Unused<J>,
    settings: &Settings,
    captured: usize,
) -> Result<Chain, StageFault>
    requires fits { captured ≤ 64 * settings.now.room }
    requires yours { HoldsFor access.old.hand batch.old stock.old }
    ensures space { IfOk result (λ chain. captured ≤ space_of chain) }
    ensures kept { IfOk result (λ chain. HoldsAll item_numbers access.new.hand
        (λ b. in_chain chain b + (in_items batch.new b + in_items stock.new b))) }
    ensures still { HoldsFor access.new.hand batch.new stock.new }
{
    let n = segments_of(captured, settings.room as usize);
    let found = if n == 1 {
        let ahead = (settings.cache as usize).max(1);
        obtain_one(rt, access, batch, stock, unused, ahead)
    } else {
        obtain_many(rt, access, batch, stock, unused, n)
    };
    let chain = found?;
    if chain.space() < captured {
        return Err(StageFault::Window);
    }
    Ok(chain)
}

/// Adds a packet to those that wait to be put together, after putting them if they fill a burst.
fn enqueue<J: Run, T: Wait + Clock>(
    rt: &T,
    access: &mut RingAccess<'_, RingItem<J>>,
    batch: &mut Burst<RingItem<J>, SPAN>,
    burst: usize,
    packet: RingItem<J>,
) -> Result<(), StageFault>
    requires at_most { burst ≤ 64 }
    requires yours { HoldsAll item_numbers access.old.hand (in_items batch.old) }
    ensures short { IfOk result (λ _. length batch.new ≤ max 1 burst) }
    ensures kept { (others : ℕ → ℕ)
        → HoldsAll item_numbers access.old.hand
        (λ b. in_numbers (item_numbers packet) b + (in_items batch.old b + others b))
        → HoldsAll item_numbers access.new.hand (λ b. in_items batch.new b + others b) }
{
    if batch.len() >= burst {
        access.send(rt, INPUT, batch)?;
    }
    batch.push(packet);
    Ok(())
}

/// Reads all records, and puts each on the input ring; the last ones then wait in `batch`.
fn read_all<J: Run, R: Read, T: Wait + Clock>(
    rt: &T,
    access: &mut RingAccess<'_, RingItem<J>>,
    reader: &mut Reader<R>,
    batch: &mut Burst<RingItem<J>, SPAN>,
    unused: &mut Unused<J>,
    settings: &Settings,
) -> Result<InputTotals<J>, RunFault>
    requires input { HasInput R.remaining reader.old J.input J.read_failures }
    requires settings { GoesBy settings.now J.room J.forwarding (length J.before) }
    requires yours { HoldsAll item_numbers access.old.hand (in_items batch.old) }
    ensures cause { IfErr result (WhyUnfed J.input reader.old reader.new) }
    ensures kept { HoldsAll item_numbers access.new.hand (in_items batch.new) }
{
    let room = settings.room as usize;
    let burst = settings.burst as usize;
    let mut stock = Burst::<RingItem<J>, SPAN>::new();
    let mut progress = ReadState::new(settings.ports.sources.len());
    // one record per turn: the result for an input with 2^64 - 1 records or more is `Window`
    for _turn in 0..u64::MAX {
        let head = match look::<J, R>(reader, &mut progress, room) {
            Ok(NextRecord::Record(head)) => head,
            Ok(NextRecord::Oversize) => continue,
            Ok(NextRecord::Ended(torn)) => return Ok(progress.into_totals(torn)),
            Err(fault) => return Err(fault),
        };
        let captured = head.captured as usize;
        let chain = match obtain(rt, access, batch, &mut stock, unused, settings, captured) {
            Ok(chain) => chain,
            Err(fault) => return Err(fault.to_run_fault()),
        };
        let packet = match read_record::<J, R>(reader, &mut progress, head, chain) {
            Ok(Some(packet)) => packet,
            Ok(None) => return Ok(progress.into_totals(true)),
            Err(fault) => return Err(fault),
        };
        match enqueue(rt, access, batch, burst, RingItem::Before(packet)) {
            Ok(()) => (),
            Err(fault) => return Err(fault.to_run_fault()),
        }
    }
    Err(RunFault::Window)
}

/// Puts the last packets, and then an end mark for each worker.
pub(crate) fn dismiss<J: Run, T: Wait + Clock>(
    rt: &T,
    access: &mut RingAccess<'_, RingItem<J>>,
    batch: &mut Burst<RingItem<J>, SPAN>,
    workers: usize,
) -> Result<(), StageFault>
    requires at_most { workers ≤ 16 }
    requires yours { HoldsAll item_numbers access.old.hand (in_items batch.old) }
{
    access.send(rt, INPUT, batch)?;
    for _i in 0..workers {
        batch.push(RingItem::mark());
    }
    access.send(rt, INPUT, batch)
}

/// The reader: reads all records, sends each to the workers, and then an end mark for each worker, whatever happens.
pub(crate) fn feed<J: Run, R: Read, T: Wait + Clock>(
    rt: &T,
    mut access: RingAccess<'_, RingItem<J>>,
    mut reader: Reader<R>,
    mut unused: Unused<J>,
    workers: usize,
    settings: &Settings,
) -> ReaderOutcome<J, R>
    requires input { HasInput R.remaining reader J.input J.read_failures }
    requires settings { GoesBy settings.now J.room J.forwarding (length J.before) }
    requires at_most { workers ≤ 16 }
{
    let mut batch = Burst::<RingItem<J>, SPAN>::new();
    let answer = read_all::<J, R, T>(
        rt,
        &mut access,
        &mut reader,
        &mut batch,
        &mut unused,
        settings,
    );
    let sent = dismiss(rt, &mut access, &mut batch, workers);
    let outcome = ReaderOutcome {
        device: Some(reader.into_inner()),
        answer,
    };
    outcome.with(sent)
}
