//! The calls of ends. The ring is looked up once, when an end is opened. The start of a call is one step if nobody else
//! was on the side since the last one, and that one saw room for more.
ghost use Rattle.std.specs.Prelude.{◌≡◌, length, IfErr, IfOk};
ghost use Rattle.ringapi.specs.Ends.{FinishesPut, FinishesTake, PutsOne, RefusesEnd, TakesOne, consumer_port};
ghost use Rattle.ringapi.specs.Ends.{consumer_ring, producer_port, producer_ring};
ghost use Rattle.ringapi.specs.Ports.{IsIdleOn, port_view};

use crate::ends::{Consumer, Producer};
use crate::port::Port;
use crate::port_fault::PortFault;
use burst::{Tagged, Word};
use fabric::{OpenSpan, PutItems, Stored, WholeFault, Words};
use geom::Side;

/// Why a port can't become an end of a ring: `NoRing`, `Open`.
fn refused<T: Tagged, const N: usize, S: Stored<T>>(
    port: &Port<T, N, S>,
    ring: usize,
) -> Result<(), PortFault>
    ensures idle { IfOk result (λ _. IsIdleOn port.now ring) }
    ensures refused { IfErr result (RefusesEnd port.now ring) }
{
    if ring >= port.rings() {
        return Err(PortFault::NoRing);
    }
    match port.span() {
        OpenSpan::Idle => Ok(()),
        _ => Err(PortFault::Open),
    }
}

impl<T: Tagged, const N: usize, S: Stored<T>> Producer<T, N, S> {
    /// Lends the put side of a ring. Errors: `NoRing`; `Open` if the port has an open span. The port comes back.
    pub fn open(
        port: Port<T, N, S>,
        ring: usize,
    ) -> Result<Producer<T, N, S>, (Port<T, N, S>, PortFault)>
        ensures opened { IfOk result
            (λ p. (producer_port p ≡ port) × (producer_ring p ≡ ring) × IsIdleOn port ring) }
        ensures refused { IfErr result (λ e. (e.0 ≡ port) × RefusesEnd port ring e.1) }
    {
        match refused(&port, ring) {
            Ok(()) => {
                let at = port.fabric.place(ring);
                Ok(Producer { port, at })
            }
            Err(why) => Err((port, why)),
        }
    }

    /// Tries once to put the item of a list. At most five steps on words, the first of them an exchange that was lost.
    ///
    /// Errors: `Open`, after a `Settle` that isn't finished; `Start`, and no span is open; `Settle`, and the span stays
    /// open for `try_finish`: on a multi side an earlier put isn't settled yet, or the item isn't the hand's to put.
    #[inline(always)]
    pub fn try_put<I: PutItems<T>>(&mut self, item: &mut I) -> Result<(), PortFault>
        requires one { length (I.items item.old) ≡ 1 }
        ensures end { (producer_ring self.new ≡ producer_ring self.old)
            × ((producer_port self.new).fabric ≡ (producer_port self.old).fabric) }
        ensures put { PutsOne T.numbers (producer_ring self.old) (I.items item.old) (producer_port self.old)
            (producer_port self.new) result }
        ensures done { IfOk result (λ _. I.items item.new ≡ I.after (I.items item.old) 1) }
        ensures refused { IfErr result (λ _. I.items item.new ≡ I.items item.old) }
    {
        match self.port.hand.span() {
            OpenSpan::Idle => (),
            _ => return Err(PortFault::Open),
        }
        let known = self.at.known(Side::Put);
        match self
            .port
            .hand
            .try_put_one_at(&self.port.fabric, &self.at, known, item, N)
        {
            Ok(_reserved) => Ok(()),
            Err(WholeFault::Start(why)) => Err(PortFault::Start(why)),
            Err(WholeFault::Settle(reserved, why)) => Err(PortFault::Settle(reserved, why)),
        }
    }

    /// Tries once to settle the span that `try_put` left open, with the item of a list. One step on a word at most.
    ///
    /// Errors: `NotOpen`; `Settle`, and the span stays open.
    pub fn try_finish<I: PutItems<T>>(&mut self, item: &mut I) -> Result<(), PortFault>
        ensures end { (producer_ring self.new ≡ producer_ring self.old)
            × ((producer_port self.new).fabric ≡ (producer_port self.old).fabric) }
        ensures finished { FinishesPut T.numbers (I.items item.old) (producer_port self.old) (producer_port self.new)
            result }
        ensures done { IfOk result (λ _. I.items item.new ≡ I.left (I.items item.old) 0) }
        ensures refused { IfErr result (λ _. I.items item.new ≡ I.items item.old) }
    {
        let reserved = match self.port.hand.span() {
            OpenSpan::Put(reserved) => reserved,
            _ => return Err(PortFault::NotOpen),
        };
        match self
            .port
            .hand
            .try_settle_put(&self.port.fabric, reserved, item)
        {
            Ok(()) => Ok(()),
            Err(why) => Err(PortFault::Settle(reserved, why)),
        }
    }

    /// Gives the port back, with what it has open.
    pub fn close(self) -> Port<T, N, S>
        ensures { result ≡ producer_port self }
    {
        self.port
    }
}

impl<T: Word, const N: usize, S: Stored<T>> Consumer<T, N, S> {
    /// Lends the take side of a ring. Errors: `NoRing`; `Open` if the port has an open span. The port comes back.
    pub fn open(
        port: Port<T, N, S>,
        ring: usize,
    ) -> Result<Consumer<T, N, S>, (Port<T, N, S>, PortFault)>
        ensures opened { IfOk result
            (λ c. (consumer_port c ≡ port) × (consumer_ring c ≡ ring) × IsIdleOn port ring) }
        ensures refused { IfErr result (λ e. (e.0 ≡ port) × RefusesEnd port ring e.1) }
    {
        match refused(&port, ring) {
            Ok(()) => {
                let at = port.fabric.place(ring);
                Ok(Consumer { port, at })
            }
            Err(why) => Err((port, why)),
        }
    }

    /// Tries once to take a word to a slice of one place. At most five steps on words, as `try_put`.
    ///
    /// Errors: `Open`, after a `Settle` that isn't finished; `Start`, and no span is open: the slice is as it was;
    /// `Settle`, on a multi side alone: the word is there already, and the span stays open for `try_finish`.
    #[inline(always)]
    pub fn try_take(&mut self, into: &mut [T]) -> Result<(), PortFault>
        requires one { length into.old ≡ 1 }
        ensures end { (consumer_ring self.new ≡ consumer_ring self.old)
            × ((consumer_port self.new).fabric ≡ (consumer_port self.old).fabric) }
        ensures taken { TakesOne T.numbers (consumer_ring self.old) into.old into.new (consumer_port self.old)
            (consumer_port self.new) result }
    {
        match self.port.hand.span() {
            OpenSpan::Idle => (),
            _ => return Err(PortFault::Open),
        }
        let known = self.at.known(Side::Take);
        match self
            .port
            .hand
            .try_take_one_at(&self.port.fabric, &self.at, known, into, N)
        {
            Ok(_reserved) => Ok(()),
            Err(WholeFault::Start(why)) => Err(PortFault::Start(why)),
            Err(WholeFault::Settle(reserved, why)) => Err(PortFault::Settle(reserved, why)),
        }
    }

    /// Tries once to settle the span that `try_take` left open. One step on a word at most. Requires: these are the
    /// words that it showed.
    ///
    /// Errors: `NotOpen`; `Settle`, and the span stays open.
    pub fn try_finish(&mut self, words: &[T]) -> Result<(), PortFault>
        requires shown { words.now ≡ (port_view (consumer_port self.old)).shown }
        ensures end { (consumer_ring self.new ≡ consumer_ring self.old)
            × ((consumer_port self.new).fabric ≡ (consumer_port self.old).fabric) }
        ensures finished { FinishesTake T.numbers words.now (consumer_port self.old) (consumer_port self.new) result }
    {
        let reserved = match self.port.hand.span() {
            OpenSpan::Take(reserved) => reserved,
            _ => return Err(PortFault::NotOpen),
        };
        let count = words.len();
        match self
            .port
            .hand
            .try_settle_take(&self.port.fabric, reserved, count, &mut Words { words })
        {
            Ok(()) => Ok(()),
            Err(why) => Err(PortFault::Settle(reserved, why)),
        }
    }

    /// Gives the port back, with what it has open.
    pub fn close(self) -> Port<T, N, S>
        ensures { result ≡ consumer_port self }
    {
        self.port
    }
}
