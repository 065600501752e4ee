//! A reader: it looks up in the last version of a table. It neither waits nor takes memory.

ghost use Rattle.std.specs.Prelude.{◌≡◌, true, false, length, map};
ghost use Rattle.lpm.specs.Match.{lookup_in};
ghost use Rattle.live_value.specs.Pasts.{IsLater};

use crate::fib::Fib;
use live_value::Reader;
use lpm::NextHop;
use std::marker::Model;

/// A reader. Contracts see what it has seen published, oldest first (`seen`), and whether it has the last of that in
/// hand (`inside`). It may be dropped at any time, also between two calls of the writer.
#[derive(Drop)]
pub struct RouteReader<H: Copy, P: Copy> {
    reader: Reader<Fib<H, P>>,
}

impl<H: Copy, P: Copy> Model for RouteReader<H, P> {
    ghost use Rattle.live_value.specs.Lanes.{Glance};
    ghost use Rattle.live_routes.specs.Forwarding.{Forwarding};
    ghost use Rattle.live_routes.specs.Seen.{glance_code};

    ghost Value = { Glance (Forwarding H P) };

    ghost coded = { glance_code H.code P.code };

    ghost view = { λ r. record { seen = r.reader.seen; inside = r.reader.inside } };
}

impl<H: Copy, P: Copy> RouteReader<H, P> {
    /// A reader that has entered no version.
    pub(crate) fn over(reader: Reader<Fib<H, P>>) -> RouteReader<H, P>
        ensures { (result.seen ≡ reader.seen) × (result.inside ≡ reader.inside) }
    {
        RouteReader { reader }
    }

    /// Whether it has entered a version: `enter` was called, and `leave` not since then.
    #[inline]
    pub fn is_inside(&self) -> bool
        ensures { result ≡ self.now.inside }
    {
        self.reader.is_inside()
    }

    /// The number of the next hop for an address, by the last version, which is no older than any that this reader
    /// used. Between `enter` and `leave` it is by the version that the reader has entered.
    #[inline]
    pub fn lookup(&mut self, addr: u32) -> Option<u32>
        ensures answer { result ≡ lookup_in self.new.seen.latest.members addr }
        ensures later { IsLater self.new.seen self.old.seen }
        ensures kept { self.old.inside ≡ true → self.new.seen ≡ self.old.seen }
        ensures inside { self.new.inside ≡ self.old.inside }
    {
        if self.reader.is_inside() {
            return self.reader.value().lookup(addr);
        }
        self.reader.enter();
        let hop = self.reader.value().lookup(addr);
        self.reader.leave();
        hop
    }

    /// The numbers of the next hops for a burst of addresses, all by the last version, which is no older than any that
    /// this reader used. Between `enter` and `leave` they are by the version that the reader has entered.
    pub fn lookup_burst(&mut self, addresses: &[u32], hops: &mut [NextHop])
        requires { length addresses.now ≡ length hops.old }
        ensures answers { hops.new ≡ map (lookup_in self.new.seen.latest.members) addresses.now }
        ensures later { IsLater self.new.seen self.old.seen }
        ensures kept { self.old.inside ≡ true → self.new.seen ≡ self.old.seen }
        ensures inside { self.new.inside ≡ self.old.inside }
    {
        if self.reader.is_inside() {
            self.reader.value().lookup_burst(addresses, hops);
            return;
        }
        self.reader.enter();
        self.reader.value().lookup_burst(addresses, hops);
        self.reader.leave();
    }

    /// Enters the last version: routes, next hops and ports of one publish. It is no older than any that this reader
    /// used, and the writer can't change it before `leave`. A version that the reader has entered already stays.
    #[inline]
    pub fn enter(&mut self)
        ensures inside { self.new.inside ≡ true }
        ensures later { IsLater self.new.seen self.old.seen }
        ensures kept { self.old.inside ≡ true → self.new.seen ≡ self.old.seen }
    {
        if !self.reader.is_inside() {
            self.reader.enter();
        }
    }

    /// The version that it has entered. Requires: `enter` was called, and `leave` not since then.
    #[inline]
    pub fn fib(&self) -> &Fib<H, P>
        requires { self.now.inside ≡ true }
        ensures { result.now ≡ self.now.seen.latest }
    {
        self.reader.value()
    }

    /// Leaves the version that it has entered.
    #[inline]
    pub fn leave(&mut self)
        ensures inside { self.new.inside ≡ false }
        ensures seen { self.new.seen ≡ self.old.seen }
    {
        if self.reader.is_inside() {
            self.reader.leave();
        }
    }
}
