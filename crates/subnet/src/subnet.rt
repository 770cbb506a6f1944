//! A packet subnet: all IMPs and lines, as a carrier.

ghost use Rattle.std.specs.Prelude.{◌≡◌, ◌+◌, ◌<◌, ◌≤◌, ◌&&◌, true, false, reverse, None, Ok, All, IfSome, IfOk, length, slice_index_or};
ghost use Rattle.interface.specs.Host.{most_imps};
ghost use Rattle.interface.specs.Rest.{RefusesOffer, RestsBeside};
ghost use Rattle.subnet.specs.Inside.Calling.{AreLive, SameLog, runs_out};
ghost use Rattle.subnet.specs.Inside.Remembering.{is_refused};
ghost use Rattle.subnet.specs.Routed.{IsHostMessage};
ghost use Rattle.subnet.specs.Alive.{is_alive};
ghost use Rattle.subnet.specs.Calls.{refusal_of, running, round_grows};
ghost use Rattle.subnet.specs.Events as events;
ghost use Rattle.subnet.specs.Opening as start;
ghost use Rattle.subnet.specs.Working.{IsWorking, subnet_calls, SubnetOffer, SubnetTake, SubnetStep, SubnetRound};

use crate::parts::{Parts, runs_out};
use crate::wire::Ends;
use interface::{
    Carrier, CarrierFault, Crossing, Flow, HostAddr, HostMessage, Inbound, NetEvent, Number,
};
use std::alloc::{AllocError, Global};
use std::marker::Model;

/// All IMPs and lines of a network, and what is in transit in them.
///
/// Hosts offer messages to their IMPs, which cut them into packets and pass those on over lines; each packet
/// may be lost, repeated and overtaken. Running out of memory stops the subnet: nothing more is done, and its log
/// is.
///
/// Beside its parts it remembers whether it rests: a quiet round then changes nothing, and is not made. And it remembers the
/// highest number that a message was begun with: an offer needn't look whether a higher one is alive.
#[derive(Drop)]
pub struct Subnet {
    pub(crate) parts: Parts,
    stopped: bool,
    rests: bool,
    highest: Number,
}

impl Model for Subnet {
    ghost use Rattle.std.specs.Coded.{codes};
    ghost use Rattle.link_table.specs.Codes.{coded_sources, coded_destinations};
    ghost use Rattle.subnet.specs.Calls.{Kept};
    ghost use Rattle.subnet.specs.Inside.Remembering.{IsRemembered};

    ghost Value = { Kept };

    ghost coded = { Prim.hlevel (codes, coded_sources, coded_destinations) };

    ghost view = { λ s. record { net = s.parts; stopped = s.stopped } };

    ghost invariant = { λ s. IsRemembered (record { net = s.parts; stopped = s.stopped }) s.rests s.highest };
}

impl Subnet {
    /// Returns the subnet of these IMPs and lines at its opening: all IMPs, ends of lines and hosts are up. `sites`
    /// says by number how many hosts an IMP has, 0 to 4, where there is one: there is none of the number 0, and none
    /// above [`interface::MOST_IMPS`]. `hosts` are the hosts of all IMPs, one after another. There are fewer than 256
    /// lines.
    ///
    /// Errors: memory runs out, and nothing else.
    pub fn new(
        alloc: Global,
        hosts: Vec<HostAddr>,
        sites: Vec<Option<u8>>,
        ends: &[Ends],
    ) -> Result<Subnet, AllocError>
        requires none { slice_index_or sites.items 0 None ≡ None }
        requires numbers { length sites.items ≤ most_imps + 1 }
        requires counts { All (λ site. IfSome site (λ count. count ≤ 4)) sites.items }
        requires listed { hosts.items ≡ start.hosts_from 0 sites.items }
        requires few { length ends.now < 256 }
        ensures { IfOk result (λ subnet. subnet ≡ running (start.opening_subnet hosts.items sites.items ends.now)) }
    {
        Ok(Subnet {
            parts: Parts::open(alloc, hosts, sites, ends)?,
            stopped: false,
            rests: false,
            highest: 0,
        })
    }

    /// Returns whether a packet or message of this flow and number is alive: a packet in a store, a channel, a slot or
    /// a live frame, or a whole message that waits for its host. An answer that waits for its host does not count.
    ///
    /// It takes no memory. After memory has run out, nothing is known of what is alive.
    pub fn alive(&self, flow: &Flow, number: Number) -> bool
        ensures { result ≡ is_alive self.now.net flow.now number }
    {
        self.parts.is_alive(flow, number)
    }

    /// Returns why an offer of this message would be refused, if it would be. This takes no memory.
    pub fn offer_refusal(&self, message: &HostMessage) -> Option<CarrierFault>
        ensures { result ≡ refusal_of self.now (λ n. events.offer_refusal n message.now) }
    {
        if self.stopped {
            return Some(CarrierFault::Stopped);
        }
        self.parts.offer_refusal(message, self.highest)
    }

    /// Returns whether running out of memory has stopped it. Its log is a run, and until then it is whole.
    fn has_stopped(&self) -> bool
        ensures same { result ≡ self.now.stopped }
        ensures working { IsWorking self.now }
    {
        self.stopped
    }

    /// Offers a message to the subnet.
    fn offer(&mut self, message: HostMessage) -> Result<(), CarrierFault>
        ensures { SubnetOffer self.old message result self.new }
    {
        if self.stopped {
            return Err(CarrierFault::Stopped);
        }
        known(&message);
        let begun = self.parts.next_number(&message.flow);
        let outcome = self.parts.offer_out(message, self.highest);
        self.highest = self.highest.max(begun);
        self.stopped = runs_out(&outcome);
        self.rests = still_rests(self.rests, &outcome);
        outcome
    }

    /// Gives a host what came for it.
    fn take(&mut self, host: HostAddr) -> Result<Option<Inbound>, CarrierFault>
        ensures { SubnetTake self.old host result self.new }
    {
        if self.stopped {
            return self.take_out(host);
        }
        if self.gives_nothing(&host) {
            return Ok(None);
        }
        self.take_out(host)
    }

    /// Returns whether a taking of this host gives nothing and changes nothing.
    #[tactic(auto, using(crate::proofs::Calls::Working::nothing_given))]
    fn gives_nothing(&self, host: &HostAddr) -> bool
        ensures { result ≡ true → SubnetTake self.now host.now (Ok None) self.now }
    {
        !self.stopped && self.parts.has_nothing_for(host)
    }

    /// Does the same as [`Subnet::take`], without a look at whether anything waits. That one calls it at two places, so
    /// that the compiler leaves it a function of its own: where nothing waits, no room is made for what it wants on the
    /// stack.
    #[inline(never)]
    fn take_out(&mut self, host: HostAddr) -> Result<Option<Inbound>, CarrierFault>
        ensures { SubnetTake self.old host result self.new }
    {
        if self.stopped {
            return Err(CarrierFault::Stopped);
        }
        let outcome = self.parts.take_in(host);
        self.stopped = has_run_out(&outcome);
        self.rests = still_rests_taken(self.rests, &outcome);
        outcome
    }

    /// Lets an event happen in the subnet.
    fn happen(&mut self, event: NetEvent) -> Result<(), CarrierFault>
        ensures { SubnetStep self.old event result self.new }
    {
        if self.stopped {
            return Err(CarrierFault::Stopped);
        }
        let outcome = self.parts.step(event);
        self.stopped = runs_out(&outcome);
        self.rests = still_rests(self.rests, &outcome);
        outcome
    }

    /// Returns whether it is remembered that a quiet round changes nothing, and no host but these would get anything.
    fn is_at_rest(&self, hosts: &[HostAddr]) -> bool
        ensures running { result ≡ true → self.now.stopped ≡ false }
        ensures unchanged { result ≡ true → RestsBeside SubnetRound SubnetTake hosts.now self.now }
    {
        if self.stopped {
            return false;
        }
        if !self.rests {
            return false;
        }
        self.parts.all_take_nothing(hosts)
    }

    /// Returns whether an offer of this message is refused, and changes nothing.
    #[tactic(auto, using(crate::proofs::Calls::Refusing::refused_offer))]
    fn refuses_offer(&self, message: &HostMessage) -> bool
        ensures { result ≡ true → RefusesOffer SubnetOffer self.now message.now }
    {
        !self.has_stopped() && self.offer_refusal(message).is_some()
    }

    /// Lets one round pass, in which what is in transit moves on. A subnet that rests is left as it is.
    #[tactic(auto, using(crate::proofs::Calls::Working::round_done, crate::proofs::Calls::Working::rested_round))]
    fn round(&mut self) -> Result<(), CarrierFault>
        ensures { SubnetRound self.old result self.new }
    {
        if self.stopped {
            return Err(CarrierFault::Stopped);
        }
        if self.rests {
            return Ok(());
        }
        if self.parts.is_settled() {
            self.rests = true;
            return Ok(());
        }
        let failed = self.parts.fails_in_round();
        self.stopped = failed;
        if failed {
            Err(CarrierFault::OutOfMemory)
        } else {
            Ok(())
        }
    }
}

impl Carrier for Subnet {
    ghost calls = { subnet_calls };

    /// Cuts the message into packets, which go out to the IMP of its destination; without a route there, queues Dead
    /// for the source at once.
    ///
    /// Errors: `NoSuch` where the source isn't a host of the network. `StillAlive` where a number would be begun, and
    /// either the number that lies [`link_table::numbers::WINDOW`] before the flow's last one is alive or the
    /// destination's IMP keeps the very number. `IsDown` where the source or its IMP is down, `Blocked` while a message
    /// of the flow is outstanding or an answer about it waits, `NoRoom` where its IMP has no place for it.
    #[tactic(auto, using(crate::proofs::Calls::Working::offer_shown))]
    fn offer_out(&mut self, message: HostMessage) -> Result<(), CarrierFault> {
        self.offer(message)
    }

    /// Gives the host the oldest answer that waits for it, else the oldest message, else `None`. With a message, RFNM
    /// goes to its source.
    ///
    /// Errors: `NoSuch` where it isn't a host of the network, `IsDown` where it or its IMP is down, `NoRoom`
    /// where the RFNM has no place.
    #[tactic(auto, using(crate::proofs::Calls::Working::take_shown))]
    fn take_in(&mut self, host: HostAddr) -> Result<Option<Inbound>, CarrierFault> {
        // for the proof only: its clause `working` says that the log is a run, and the network whole until it stops
        let _ = self.has_stopped();
        self.take(host)
    }

    /// Each event is a step of one IMP, of one line or of one host, as the definitions of `specs/Events` say,
    /// with its refusals in their order.
    #[tactic(auto, using(crate::proofs::Calls::Working::step_shown))]
    fn step(&mut self, event: NetEvent) -> Result<(), CarrierFault> {
        // for the proof only, as in `take_in`
        let _ = self.has_stopped();
        self.happen(event)
    }

    /// Lets each IMP that is up send its distances and send again; then delivers and drops each live frame.
    #[tactic(auto, using(crate::proofs::Calls::Working::round_shown))]
    fn quiet_round(&mut self) -> Result<(), CarrierFault> {
        self.round()
    }

    /// It is known from the first quiet round on that would leave the network as it is, until something is done there, and only
    /// while nothing waits for any host that is up, but for these. Such a round finds no frame on a line, no packet in an IMP but such
    /// as wait for a line without a free channel, and at each line that is up at both ends no packet that waits for its
    /// acknowledgement and no distances to announce. What is sent again then is lost, at ends that are down.
    fn rests_beside(&self, hosts: &[HostAddr]) -> bool {
        self.is_at_rest(hosts)
    }

    /// It is known of each message, by [`Subnet::offer_refusal`].
    fn refuses(&self, message: &HostMessage) -> bool {
        self.refuses_offer(message)
    }

    fn log(&self) -> &[Crossing] {
        self.parts.log()
    }

    fn hosts(&self) -> &[HostAddr] {
        self.parts.hosts()
    }
}

impl Parts {
    /// Passes a quiet round, which may run out of memory.
    fn fails_in_round(&mut self) -> bool
        requires { AreLive self.old.imps }
        ensures round { result ≡ false → self.new ≡ events.quiet_round self.old }
        ensures memory { result ≡ true → round_grows self.old ≡ true }
        ensures keeps { SameLog self.old self.new }
    {
        self.quiet_round().is_err()
    }

    /// Returns all crossings so far, the oldest first.
    fn log(&self) -> &[Crossing]
        ensures { result.now ≡ reverse self.now.log }
    {
        &self.log
    }

    /// Returns the hosts of the network.
    fn hosts(&self) -> &[HostAddr]
        ensures { result.now ≡ self.now.hosts }
    {
        self.hosts.all()
    }
}

/// Returns whether a subnet that rested before a call, or didn't, rests after it: a call that is refused changes
/// nothing.
fn still_rests(rested: bool, outcome: &Result<(), CarrierFault>) -> bool
    ensures { result ≡ (rested && is_refused outcome.now) }
{
    rested && outcome.is_err() && !runs_out(outcome)
}

/// Does the same for a taking.
fn still_rests_taken(rested: bool, outcome: &Result<Option<Inbound>, CarrierFault>) -> bool
    ensures { result ≡ (rested && is_refused outcome.now) }
{
    rested && outcome.is_err() && !has_run_out(outcome)
}

/// Returns whether memory ran out.
fn has_run_out(outcome: &Result<Option<Inbound>, CarrierFault>) -> bool
    ensures { result ≡ runs_out outcome.now }
{
    matches!(outcome, Err(CarrierFault::OutOfMemory))
}

/// Proves what the type of a message promises.
///
/// It is there for the proof only, and does nothing: it looks at the addresses, at the text and at the link, and the
/// prover then knows their ranges.
fn known(message: &HostMessage)
    ensures { IsHostMessage message.now }
{
    let _ = message.flow.source.imp();
    let _ = message.flow.source.host();
    let _ = message.flow.destination.imp();
    let _ = message.flow.destination.host();
    let _ = message.text.bits();
    is_octet(message.flow.link.0);
}

/// Proves that a link is an octet. It is there for the proof only.
fn is_octet(link: u8)
    ensures { link < 256 }
{}
