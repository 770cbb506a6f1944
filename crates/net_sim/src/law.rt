//! What follows for hosts that run the network control program, whatever carries their messages. The functions here
//! do nothing: each clause is a law.

ghost use Rattle.std.specs.Prelude.{◌≡◌, ℕ, List, length};
ghost use Rattle.interface.specs.Host.{Host, IsAddress};
ghost use Rattle.interface.specs.declared.address.Flow.{Flow};
ghost use Rattle.interface.specs.declared.crossing.Answer.{Answer};
ghost use Rattle.interface.specs.declared.crossing.Crossing.{Crossing};
ghost use Rattle.interface.specs.declared.crossing.Inbound.TheVariants as inbound;
ghost use Rattle.interface.specs.declared.message.HostMessage.{HostMessage};
ghost use Rattle.interface.specs.Mailboxes.{Needs, box_of, is_up};
ghost use Rattle.net_sim.specs.Story.{AgreesAfter, IsStory, Moment, events_of, program};
ghost use Rattle.net_sim.specs.Projection.{event_of};
ghost use Rattle.net_sim.specs.Timeline.{IsAddressed, crossings_of, seen_box};
ghost use Rattle.reset_law.specs.Boxes.{boxes};
ghost use Rattle.reset_law.specs.Events as events;
ghost use Rattle.reset_law.specs.Network.{AreOurs, Network};
ghost use Rattle.reset_law.specs.Runs as runs;
ghost use Rattle.sockets.specs.Accepting.{accepted};
ghost use Rattle.sockets.specs.Pairs.{NcpState};
ghost use Rattle.sockets.specs.Peers.{AreInOrder};
ghost use Rattle.sockets.specs.Requests.{served};
ghost use Rattle.sockets.specs.Sending.{offered};
ghost use Rattle.sockets.specs.declared.request.Request.{Request};
ghost use Rattle.net_sim.specs.Laws.Worlds.{Books, CleanResets, CleanTakings, LawfulWorlds, Resets, Worlds, WorldsAmong};

use interface::Carrier;

/// Each call of a host's program is, for each peer `h`, a step of the law of resets: where program and law agree on the pair
/// before it, they agree on it after it.
pub fn resets()
    ensures { Resets }
{}

/// What becomes of all programs, moment by moment: crossings, and what users ask for.
pub fn stories()
    // in a story each program is, for each peer, where the law of resets has it
    ensures agrees { (hosts : Network) (moments : List Moment) (a b : Host) → AreOurs hosts a b → IsStory hosts moments → AgreesAfter moments a b }

    // and keeps its own address
    ensures own { (moments : List Moment) (a : Host) → (program a moments).own ≡ a }
{}

/// What is in the book of a world, whatever its carrier is made of: all that crossed, except for the event in which memory ran
/// out, after every list of events.
pub fn books<C: Carrier>()
    ensures { Books C.calls }
{}

/// Each call of a host's program keeps its peers in order of their address octets, each host once.
pub fn orders()
    // a message comes from a host with an address, and a user names its peer by one: the types of both promise it
    ensures request { (s : NcpState) (r : Request) → IsAddressed r → AreInOrder s.peers → AreInOrder (served s r).peers }
    ensures message { (s : NcpState) (m : HostMessage) (stamp : ℕ) → IsAddress m.flow.source → AreInOrder s.peers → AreInOrder (accepted s (inbound.Message m) stamp).0.peers }
    ensures answer { (s : NcpState) (kind : Answer) (f : Flow) (stamp : ℕ) → AreInOrder s.peers → AreInOrder (accepted s (inbound.Answer kind f) stamp).0.peers }
    ensures offer { (s : NcpState) (stamp : ℕ) → AreInOrder s.peers → AreInOrder (offered s stamp).0.peers }
{}

/// The mailboxes, as the law of resets has them, are those of the crossings.
pub fn mailboxes()
    // a host is up, a message is at a place, and a box holds a message where the crossings have it so
    ensures up { (hosts : List Host) (h : Host) (moments : List Moment) → events.is_up hosts h (events_of moments) ≡ is_up hosts h (crossings_of moments) }
    ensures place { (moments : List Moment) → events.place (events_of moments) ≡ length (crossings_of moments) }
    ensures held { (f : Flow) (moments : List Moment) → boxes f.source f.destination (events_of moments) f.link.0 ≡ seen_box f.link.0 (box_of f (crossings_of moments)) }

    // so what crosses finds by the law what it found by the mailboxes
    ensures needs { (hosts : List Host) (c : Crossing) (moments : List Moment) → Needs hosts c (crossings_of moments) → runs.Needs hosts (event_of c) (events_of moments) }
{}

/// The book of a world without strangers describes one list of moments, the crossings and what users asked for and weren't refused, whatever the carrier is
/// made of. All that is kept, except for what services report, is theirs, and until memory runs out each host has the program that
/// comes of them.
pub fn worlds<C: Carrier>()
    ensures { Worlds C.calls }
{}

/// What becomes of resets in a world, by the contacts and crossings in its book only. The carrier's log is a run of the
/// mailboxes, as every carrier promises of it.
pub fn clean_resets<C: Carrier>()
    ensures { CleanResets C.calls }
{}

/// Both halves of a clean reset, over any list of moments: of whatever a host takes of a peer, except for RST and RRP, either it went out
/// after the host's last clean point for that peer, or its taking leaves every pair and what listens as they were, and reports nothing.
pub fn clean_takings<C: Carrier>()
    ensures { CleanTakings C.calls }
{}

/// The worlds without strangers of which that is said: those that began over a carrier whose log is empty, between hosts with addresses, however
/// they continued.
pub fn lawful_worlds<C: Carrier>()
    ensures { LawfulWorlds C.calls }
{}

/// The same of all worlds: whatever strangers send and take, all that is kept of the hosts with programs is what their programs say.
pub fn worlds_among<C: Carrier>()
    ensures { WorldsAmong C.calls }
{}
