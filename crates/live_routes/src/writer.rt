//! The writer: it changes a copy that no reader has, and publishes it. No call waits.

ghost use Rattle.std.specs.Prelude.{◌≡◌, ◌≤◌, ◌<◌, ◌+◌, ◌⊎◌, true, false, IfOk, IfErr, OnOk, OnErr, IsTrue, ◌↔◌};
ghost use Rattle.live_value.specs.Pasts.{followed, only};
ghost use Rattle.live_routes.specs.Forwarding.{opening};

use crate::change::Change;
use crate::fault::LiveFault;
use crate::fib::Fib;
use crate::form::Form;
use crate::reader::RouteReader;
use crate::settling::catch_up;
use live_value::Publisher;
use std::alloc::{AllocError, Global};
use std::collections::VecDeque;
use std::marker::Model;

mod changing;

/// The one writer. Contracts see what was published, oldest first (`seen`), what the next publish will publish
/// (`prepared`), whether it can be changed (`settled`), and how many changes readers don't see yet (`pending`).
#[derive(Drop)]
pub struct RouteWriter<H: Copy, P: Copy> {
    publisher: Publisher<Fib<H, P>>,
    /// The copy that no reader has.
    spare: Option<Fib<H, P>>,
    /// Whether it has all changes.
    is_ready: bool,
    /// What one copy has and the other doesn't.
    log: VecDeque<Change<H, P>>,
}

impl<H: Copy, P: Copy> Model for RouteWriter<H, P> {
    ghost use Rattle.std.specs.Prelude.{length, if◌then◌else◌};
    ghost use Rattle.live_routes.specs.Routing.{Routing, routing_code, IsRouting, prepared_of};

    ghost Value = { Routing H P };

    ghost coded = { routing_code H.code P.code };

    ghost view = { λ w. record {
      seen = w.publisher.seen;
      prepared = prepared_of w.publisher.seen w.spare w.is_ready;
      settled = w.is_ready;
      pending = if w.is_ready then length w.log.items else 0;
    } };

    ghost invariant = { λ w. IsRouting w.publisher w.spare w.is_ready w.log.items };
}

impl<H: Copy, P: Copy> RouteWriter<H, P> {
    /// Publishes no routes, and these next hops and ports. Both copies have this form, a first level of 2^`bits`
    /// entries and at most `groups` groups. Returns `Err` only if out of memory.
    pub fn open(
        alloc: Global,
        form: Form,
        bits: u8,
        groups: u32,
        hops: &[H],
        ports: &[P],
    ) -> Result<RouteWriter<H, P>, AllocError>
        requires { (bits ≡ 16) ⊎ (bits ≡ 24) }
        ensures seen { IfOk result (λ w. w.seen ≡ only (opening bits groups hops.now ports.now)) }
        ensures prepared { IfOk result (λ w. w.prepared ≡ opening bits groups hops.now ports.now) }
        ensures settled { IfOk result (λ w. (w.settled ≡ true) × (w.pending ≡ 0)) }
    {
        let first = Fib::new(alloc, form, bits, groups, hops, ports)?;
        let second = Fib::new(alloc, form, bits, groups, hops, ports)?;
        let publisher = Publisher::new(alloc, first)?;
        Ok(RouteWriter {
            publisher,
            spare: Some(second),
            is_ready: true,
            log: VecDeque::new(alloc),
        })
    }

    /// A reader, which may go to another thread, and has seen all that was published. Returns `Err` only if out of
    /// memory.
    pub fn share(&mut self) -> Result<RouteReader<H, P>, AllocError>
        ensures reader { IfOk result (λ r. (r.seen ≡ self.old.seen) × (r.inside ≡ false)) }
        ensures same { self.new ≡ self.old }
    {
        let reader = self.publisher.share()?;
        Ok(RouteReader::over(reader))
    }

    /// Whether a change can be made now.
    pub fn is_settled(&self) -> bool
        ensures { result ≡ self.now.settled }
    {
        self.is_ready
    }

    /// How many changes readers don't see yet.
    pub fn pending(&self) -> usize
        ensures { result ≡ self.now.pending }
    {
        if self.is_ready { self.log.len() } else { 0 }
    }

    /// What the next publish will publish.
    pub fn fib(&self) -> &Fib<H, P>
        ensures { result.now ≡ self.now.prepared }
    {
        match (&self.spare, self.is_ready) {
            (Some(fib), true) => fib,
            _ => self.publisher.latest(),
        }
    }

    /// Goes on with the last publish: takes the copy before it back, and makes the changes on it too. Errors: 7
    /// `Pending` while a reader is in a call that began before, 4 `Memory` where the second copy is refused memory for
    /// a change. Then it is to be called again; nothing that callers see has changed.
    pub fn settle(&mut self) -> Result<(), LiveFault>
        ensures ok { OnOk result (self.new ≡ record self.old { settled = true }) }
        ensures err { OnErr result ((self.new ≡ self.old) × (self.old.settled ≡ false)) }
        ensures why { IfErr result (λ fault. (fault ≡ LiveFault.Pending) ⊎ (fault ≡ LiveFault.Memory)) }
    {
        if self.is_ready {
            return Ok(());
        }
        if self.spare.is_none() {
            self.spare = self.publisher.settle();
        }
        let Some(fib) = &mut self.spare else {
            return Err(LiveFault::Pending);
        };
        self.is_ready = catch_up(fib, &mut self.log);
        if self.is_ready {
            Ok(())
        } else {
            Err(LiveFault::Memory)
        }
    }

    /// Publishes what is prepared: each reader takes it at its next call. `settle`, which is tried here once, gets the
    /// copy before it back for the writer. Errors: 7 `Pending` where the publish before isn't settled, 4 `Memory`. An
    /// error changes nothing that callers see but `settled`.
    pub fn publish(&mut self) -> Result<(), LiveFault>
        ensures ok { OnOk result ((self.new.seen ≡ followed self.old.seen self.old.prepared)
            × (self.new.prepared ≡ self.old.prepared) × (self.new.pending ≡ 0)) }
        ensures pending { (result ≡ Err LiveFault.Pending) → (self.new.settled ≡ false) }
        ensures err { OnErr result ((self.new.seen ≡ self.old.seen) × (self.new.prepared ≡ self.old.prepared)
            × (self.new.pending ≡ self.old.pending)) }
        ensures why { IfErr result (λ fault. (fault ≡ LiveFault.Pending) ⊎ (fault ≡ LiveFault.Memory)) }
    {
        if self.settle().is_err() {
            return Err(LiveFault::Pending);
        }
        self.publish_settled()?;
        let _ = self.settle();
        Ok(())
    }

    /// Publishes what is prepared, and doesn't try to get the copy before it back. The only error is 4 `Memory`.
    fn publish_settled(&mut self) -> Result<(), LiveFault>
        requires { self.old.settled ≡ true }
        ensures ok { OnOk result
            (self.new ≡ record {
              seen = followed self.old.seen self.old.prepared;
              prepared = self.old.prepared;
              settled =
                  false;
              pending = 0;
            }) }
        ensures err { OnErr result (self.new ≡ self.old) }
        ensures why { IfErr result (λ fault. fault ≡ LiveFault.Memory) }
    {
        let Some(fib) = self.spare.take() else {
            unreachable!()
        };
        if let Err(fib) = self.publisher.publish(fib) {
            self.spare = Some(fib);
            return Err(LiveFault::Memory);
        }
        self.is_ready = false;
        Ok(())
    }
}
