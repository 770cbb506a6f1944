//! A calm: quiet rounds, and after each of them every host with a program that is up takes what came for it and says
//! what it has to say.

ghost use Rattle.std.specs.Prelude.{◌≡◌, ◌<◌, ℕ, true, false, length, if◌then◌else◌, is_some, slice_get, None, Ok, Some};
ghost use Rattle.net_sim.specs.Carriers.{shown};
ghost use Rattle.net_sim.specs.Inside.Calm.{AllOfferNothing, CalmTurn, OffersNothing, OffersNothingAt, Round};
ghost use Rattle.net_sim.specs.Rest.{IsAtRest};
ghost use Rattle.net_sim.specs.Silent.{AllSilent, IsSilent, IsSilentAt};
ghost use Rattle.net_sim.specs.World as world;
ghost use Rattle.net_sim.specs.World.{CalmGives, Repeats};

use crate::mixed_world::{MixedWorld, stops};
use crate::seat::Seat;
use crate::{Event, WorldFault};
use interface::{Carrier, CarrierFault, HostAddr, TAKINGS};

/// How often a host offers in one round at most.
pub const OFFERS: u8 = 32;

/// Returns the host whose seat is here, if it is up.
fn up_here(seats: &[Seat], at: usize) -> Option<HostAddr>
    requires { at < length seats.now }
    ensures { (seat : world.Seat) → slice_get seats.now at ≡ Some seat → result ≡ (if is_some seat.program then Some seat.host else None) }
{
    let seat = &seats[at];
    if seat.program.is_none() {
        return None;
    }
    Some(seat.host)
}

/// Returns whether a host is down, has nothing to say, or is known to be refused what it has to say.
fn offers_nothing<C: Carrier>(carrier: &C, seat: &Seat) -> bool
    ensures { result ≡ true → OffersNothing C.calls carrier.now seat.now }
{
    let Some(program) = &seat.program else {
        return true;
    };
    match program.next_out() {
        Ok(Some(message)) => carrier.refuses(&message),
        Ok(None) => true,
        Err(_) => false,
    }
}

/// Returns whether each host that is up has nothing to say.
fn all_silent(seats: &[Seat]) -> bool
    ensures { result ≡ true → AllSilent seats.now }
{
    let count = seats.len();
    for at in 0..count {
        if !is_silent_at(seats, at) {
            return false;
        }
    }
    true
}

/// Returns whether the host whose seat is here is down, or has nothing to say.
fn is_silent_at(seats: &[Seat], at: usize) -> bool
    requires { at < length seats.now }
    ensures { result ≡ true → IsSilentAt seats.now at }
{
    is_silent(&seats[at])
}

/// Returns whether a host is down, or has nothing to say.
fn is_silent(seat: &Seat) -> bool
    ensures { result ≡ true → IsSilent seat.now }
{
    let Some(program) = &seat.program else {
        return true;
    };
    matches!(program.next_out(), Ok(None))
}

impl<C: Carrier> MixedWorld<C> {
    /// Passes `rounds` times: a quiet round of the network, and then each host that has a program and is up has its
    /// turn, as in [`World::calm`](crate::World::calm). A stranger has none: what waits for it stays, and it says
    /// nothing.
    ///
    /// Errors: memory runs out, which ends the calm, and `Stopped` after that.
    pub fn calm(&mut self, rounds: u32) -> Result<(), WorldFault>
        ensures { CalmGives (shown C.calls) rounds self.old result self.new }
    {
        if self.is_stopped() {
            return Err(WorldFault::Carrier(CarrierFault::Stopped));
        }
        for _ in 0..rounds {
            let before = self.crossed();
            let answer = self.pass_round();
            if stops(&answer) {
                return answer;
            }
            if self.has_calmed(before) {
                return Ok(());
            }
        }
        Ok(())
    }

    /// Returns whether more rounds of a calm are known to change nothing: the network is known to rest, but for what
    /// waits for strangers, which take nothing in a calm; and each host that has a program and is up has nothing to
    /// say, or is known to be refused what it has to say.
    pub fn rests(&self) -> bool
        ensures rest { result ≡ true → IsAtRest (shown C.calls) self.now }
        ensures unchanged { result ≡ true → (n : ℕ) → CalmGives (shown C.calls) n self.now (Ok tt) self.now }
        ensures running { result ≡ true → self.now.stopped ≡ false }
    {
        self.has_calmed(self.crossed())
    }

    /// Returns whether it is known that no host that has a program and is up has anything to say.
    pub fn is_silent(&self) -> bool
        ensures { result ≡ true → AllSilent self.now.seats }
    {
        all_silent(self.seats())
    }

    /// Returns whether another round is known to change nothing: nothing has crossed since the book had this many
    /// crossings, the network is known to rest beside the strangers, and no host has a message that it might take.
    fn has_calmed(&self, before: usize) -> bool
        ensures { result ≡ true → IsAtRest (shown C.calls) self.now }
    {
        if self.crossed() > before {
            return false;
        }
        if self.is_stopped() {
            return false;
        }
        if !self.carrier().rests_beside(self.strangers()) {
            return false;
        }
        // for the proof only: the world is lawful, so that no stranger has a seat
        let _book = self.book();
        self.all_offer_nothing()
    }

    /// Returns whether each host is down, has nothing to say, or is known to be refused what it has to say.
    fn all_offer_nothing(&self) -> bool
        ensures { result ≡ true → AllOfferNothing C.calls self.now.carrier self.now.seats }
    {
        let count = self.seats().len();
        for at in 0..count {
            if !self.offers_nothing_at(at) {
                return false;
            }
        }
        true
    }

    /// Returns the same of the host whose seat is here.
    fn offers_nothing_at(&self, at: usize) -> bool
        requires { at < length self.now.seats }
        ensures { result ≡ true → OffersNothingAt C.calls self.now.carrier self.now.seats at }
    {
        offers_nothing(self.carrier(), &self.seats()[at])
    }

    /// Passes one quiet round of the network, after which each host that is up has its turn.
    fn pass_round(&mut self) -> Result<(), WorldFault>
        ensures { Round (shown C.calls) self.old result self.new }
    {
        let passed = self.turn(&Event::Quiet);
        if stops(&passed) {
            return passed;
        }
        let seats = self.seats().len();
        for at in 0..seats {
            if let Some(host) = up_here(self.seats(), at) {
                let answer = self.take_turn(at, host);
                if stops(&answer) {
                    return answer;
                }
            }
        }
        Ok(())
    }

    /// Lets a host take what came for it, and then say what it has to say. Its seat is likely here.
    fn take_turn(&mut self, at: usize, host: HostAddr) -> Result<(), WorldFault>
        ensures { CalmTurn (shown C.calls) host self.old result self.new }
    {
        let answer = self.repeat(at, &Event::Take(host), TAKINGS);
        if stops(&answer) {
            return answer;
        }
        self.repeat(at, &Event::Offer(host), OFFERS)
    }

    /// Lets an event happen until nothing crosses by it, or this many times. Its host's seat is likely here.
    fn repeat(&mut self, at: usize, event: &Event, times: u8) -> Result<(), WorldFault>
        ensures { Repeats (shown C.calls) event.now times self.old result self.new }
    {
        for _ in 0..times {
            let before = self.crossed();
            let answer = self.turn_near(Some(at), event);
            if stops(&answer) {
                return answer;
            }
            if self.crossed() <= before {
                return Ok(());
            }
        }
        Ok(())
    }
}
