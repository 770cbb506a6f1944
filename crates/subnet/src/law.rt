//! What holds of a subnet whatever its code is, as laws over the definitions. The functions here do nothing:
//! each clause is a law.
//!
//! The functions `worked_..` state the rules by examples: each row is one that another reading of its rule
//! would fail.

ghost use Rattle.std.specs.Prelude.{◌≡◌, ◌≤◌, ◌+◌, ℕ, true, false, List, [], ◌∷◌, ◌++◌, length, Option, Some, None, Result};
ghost use Rattle.interface.specs.Calls.{IsFor, step_crossings, ShowsOffer, ShowsTake, ShowsStep, ShowsRound};
ghost use Rattle.interface.specs.Host.{Host, InOrder, most_imps};
ghost use Rattle.interface.specs.Mailboxes.{IsRun, is_up};
ghost use Rattle.interface.specs.declared.address.Flow.{Flow};
ghost use Rattle.interface.specs.declared.carrier.CarrierFault.{CarrierFault};
ghost use Rattle.interface.specs.declared.carrier.CarrierFault.TheVariants as fault;
ghost use Rattle.interface.specs.declared.crossing.Crossing.TheVariants as crossing;
ghost use Rattle.interface.specs.declared.crossing.Inbound.{Inbound};
ghost use Rattle.interface.specs.declared.event.Direction.{Direction};
ghost use Rattle.interface.specs.declared.event.Direction.TheVariants as way;
ghost use Rattle.interface.specs.declared.event.NetEvent.{NetEvent};
ghost use Rattle.interface.specs.declared.event.NetEvent.TheVariants as event;
ghost use Rattle.interface.specs.declared.message.HostMessage.{HostMessage};
ghost use Rattle.imp_node.specs.Examples.{host, flow, packets_to, ack_frame};
ghost use Rattle.imp_node.specs.Lines.{on_port};
ghost use Rattle.imp_node.specs.State.{State, opening_node, no_host, port_at};
ghost use Rattle.subnet.specs.Calls.{Kept, running, step_grows, round_grows};
ghost use Rattle.subnet.specs.Alive.{packets, messages};
ghost use Rattle.subnet.specs.Events.{offer_refusal, offer_out, take_refusal, taken_by_host, crossings_of, take_in, deliver, starting_refusal, imp_stopped};
ghost use Rattle.subnet.specs.Events.{imp_started, quiet_round, step_refusal, stepped};
ghost use Rattle.subnet.specs.Examples.{ours, our_message, data_frame, rfnm_frame, ask_frame, passing_frame, imp_1, imp_2, wire, pair, begun_up_to};
ghost use Rattle.subnet.specs.Examples.{outstanding_up_to, answered_up_to, expecting, expecting_cut_off, expecting_full, one_host_down, hosts_down, cut_off, serving_ours, keeping_up_to, keeping_ours};
ghost use Rattle.subnet.specs.Examples.{sending_ours, first_in_row, middle_in_row, row, expecting_at_3, keeping_at_3, full_of, triangle};
ghost use Rattle.subnet.specs.Flows.{host_is_up};
ghost use Rattle.subnet.specs.Making.{NothingNew, OnlyNew, offer_makes, take_makes, deliver_makes, asking_makes, stop_makes};
ghost use Rattle.subnet.specs.Net.{Net, imp_at, wire_at, port_of, line_from, put_one, frames_on};
ghost use Rattle.subnet.specs.Offers.{CanGoFrom};
ghost use Rattle.subnet.specs.Opening.{Ends, AreHosts};
ghost use Rattle.subnet.specs.Opening as start;
ghost use Rattle.subnet.specs.Routed.{IsRouted, IsHostMessage};
ghost use Rattle.subnet.specs.Run.{Call, OffersMessages, ran};
ghost use Rattle.subnet.specs.Seen.{seen, IsListed, SameNetwork};
ghost use Rattle.subnet.specs.Sound.{IsSound};
ghost use Rattle.subnet.specs.Working.{IsWorking, SubnetOffer, SubnetTake, SubnetStep, SubnetRound, seen_of};
ghost use Rattle.subnet.specs.Laws.{WorkedFrames, WorkedStillAlive, WorkedRefusals, WorkedRounds};

/// The law of the subnet: for every topology of at most 63 IMPs, with any lines, and for every list of offers,
/// takings, events and quiet rounds from its opening on, of which some are refused, the log that the hosts see is
/// a run of the mailboxes.
pub fn whole_runs()
    ensures run { (hosts : List Host) (sites : List (Option ℕ)) (ends : List Ends) (calls : List Call)
        → AreHosts hosts sites
        → length sites ≤ most_imps + 1
        → OffersMessages calls
        → IsRun hosts (ran calls (start.opening_subnet hosts sites ends)).log }

    // and the subnet is sound
    ensures sound { (hosts : List Host) (sites : List (Option ℕ)) (ends : List Ends) (calls : List Call)
        → AreHosts hosts sites
        → length sites ≤ most_imps + 1
        → OffersMessages calls
        → IsSound (ran calls (start.opening_subnet hosts sites ends)) }
{}

/// What hosts see of each call of a subnet.
pub fn shown()
    // what the log of a sound subnet says of a host, up or down, is what its IMP says
    ensures ups { (n : Net) (h : Host) → IsSound n → is_up n.hosts h n.log ≡ host_is_up (imp_at n.imps h.imp) h.host }

    // the message that is offered crosses, and so does what is taken, which is for the host that takes
    ensures offer_out { (n : Net) (m : HostMessage) → (offer_out n m).log ≡ crossing.Out m ∷ n.log }
    ensures take_in { (n : Net) (h : Host) → (take_in n h).log ≡ crossings_of (taken_by_host n h) ++ n.log }
    ensures taken { (n : Net) (h : Host) (i : Inbound) → IsSound n → taken_by_host n h ≡ Some i → IsFor h i }

    // a host that stops or starts crosses, and so do the hosts of an IMP that stops, in order, if they are up
    ensures step { (n : Net) (e : NetEvent) → step_refusal n e ≡ None → IsListed n → IsSound n → (stepped n e).log ≡ step_crossings (seen n) e ++ n.log }
    ensures quiet_round { (n : Net) → (quiet_round n).log ≡ n.log }
{}

/// A subnet as a carrier: each call, whether it succeeds, is refused or runs out of memory, keeps what holds of a subnet
/// always, and shows what every carrier's calls show.
pub fn carrier()
    ensures offer_out { (old new : Kept) (m : HostMessage) (result : Result Unit CarrierFault) → IsHostMessage m → SubnetOffer old m result new → IsWorking old → IsWorking new }
    ensures offer_shown { (old new : Kept) (m : HostMessage) (result : Result Unit CarrierFault) → SubnetOffer old m result new → ShowsOffer (seen_of old) m result (seen_of new) }
    ensures take_in { (old new : Kept) (h : Host) (result : Result (Option Inbound) CarrierFault) → SubnetTake old h result new → IsWorking old → IsWorking new }
    ensures take_shown { (old new : Kept) (h : Host) (result : Result (Option Inbound) CarrierFault) → IsWorking old → SubnetTake old h result new → ShowsTake (seen_of old) h result (seen_of new) }
    ensures step { (old new : Kept) (e : NetEvent) (result : Result Unit CarrierFault) → SubnetStep old e result new → IsWorking old → IsWorking new }
    ensures step_shown { (old new : Kept) (e : NetEvent) (result : Result Unit CarrierFault) → IsWorking old → SubnetStep old e result new → ShowsStep (seen_of old) e result (seen_of new) }
    ensures quiet_round { (old new : Kept) (result : Result Unit CarrierFault) → SubnetRound old result new → IsWorking old → IsWorking new }
    ensures round_shown { (old new : Kept) (result : Result Unit CarrierFault) → SubnetRound old result new → ShowsRound (seen_of old) result (seen_of new) }

    // at its opening it is so
    ensures opening { (sites : List (Option ℕ)) (ends : List Ends) → length sites ≤ most_imps + 1 → IsWorking (running (start.opening_subnet (start.hosts_from 0 sites) sites ends)) }
{}

/// The hosts of the network and its sites are the same after each call.
pub fn same_network()
    ensures offer_out { (n : Net) (m : HostMessage) → SameNetwork n (offer_out n m) }
    ensures take_in { (n : Net) (h : Host) → SameNetwork n (take_in n h) }
    ensures step { (n : Net) (e : NetEvent) → SameNetwork n (stepped n e) }
    ensures quiet_round { (n : Net) → SameNetwork n (quiet_round n) }
{}

/// Which packets are in a subnet, in its IMPs and in live frames, after each event: those that were in it,
/// and those that the rule of the event makes. Nothing else comes about.
pub fn holding()
    // a message that goes over lines is cut into its packets, and one that is taken gives an RFNM
    ensures offer_out { (n : Net) (m : HostMessage) → OnlyNew n (offer_makes n m) (offer_out n m) }
    ensures take_in { (n : Net) (h : Host) → OnlyNew n (take_makes n h) (take_in n h) }

    // a frame brings a packet that was alive. A piece that can't be delivered gives Dead, and a question gives its answer, if it has one
    ensures deliver { (n : Net) (l : ℕ) (d : Direction) (k : ℕ) → OnlyNew n (deliver_makes n l d k) (stepped n (event.Deliver l d k)) }

    // a question about an outstanding message, where it goes over lines
    ensures ask { (n : Net) (f : Flow) → OnlyNew n (asking_makes n f) (stepped n (event.Ask f)) }

    // each message that waits for a host that goes down gives Dead
    ensures host_down { (n : Net) (h : Host) → OnlyNew n (stop_makes n h) (stepped n (event.HostDown h)) }

    // no other event makes a packet
    ensures drop { (n : Net) (l : ℕ) (d : Direction) (k : ℕ) → NothingNew n (stepped n (event.Drop l d k)) }
    ensures resend { (n : Net) (i : ℕ) → NothingNew n (stepped n (event.Resend i)) }
    ensures route { (n : Net) (i : ℕ) → NothingNew n (stepped n (event.Route i)) }
    ensures end_down { (n : Net) (i l : ℕ) → NothingNew n (stepped n (event.EndDown i l)) }
    ensures end_up { (n : Net) (i l : ℕ) → NothingNew n (stepped n (event.EndUp i l)) }
    ensures imp_down { (n : Net) (i : ℕ) → NothingNew n (stepped n (event.ImpDown i)) }
    ensures imp_up { (n : Net) (i : ℕ) → NothingNew n (stepped n (event.ImpUp i)) }
    ensures host_up { (n : Net) (h : Host) → NothingNew n (stepped n (event.HostUp h)) }
    ensures give_up { (n : Net) (f : Flow) → NothingNew n (stepped n (event.GiveUp f)) }
    ensures forget { (n : Net) (at from : ℕ) → NothingNew n (stepped n (event.Forget at from)) }
    ensures abandon { (n : Net) (f : Flow) → NothingNew n (stepped n (event.Abandon f)) }
{}

/// At its opening a subnet whose hosts are those of its IMPs is sound, and no packet is there.
pub fn at_the_opening()
    ensures sound { (hosts : List Host) (sites : List (Option ℕ)) (ends : List Ends) → AreHosts hosts sites → IsSound (start.opening_subnet hosts sites ends) }
    ensures empty { (hosts : List Host) (sites : List (Option ℕ)) (ends : List Ends) → packets (start.opening_subnet hosts sites ends) ≡ [] }

    // the hosts that are in the list of the IMPs, one after another, are those of its IMPs
    ensures hosts { (sites : List (Option ℕ)) → AreHosts (start.hosts_from 0 sites) sites }
    ensures ordered { (sites : List (Option ℕ)) → InOrder (start.hosts_from 0 sites) }
{}

/// A sound subnet stays sound where hosts offer and take messages and where frames are delivered.
pub fn sound_messages()
    // a message is offered, where that is not refused: it goes nowhere and Dead waits, it waits for a host of the same IMP, or it
    // goes over lines. Packets can carry it, unless it goes nowhere
    ensures offer_out { (n : Net) (m : HostMessage) → CanGoFrom (imp_at n.imps m.flow.source.imp) m → offer_refusal n m ≡ None → IsSound n → IsSound (offer_out n m) }

    // a host takes what waits for it, where that is not refused: an answer, a message, for which its source is notified, or nothing
    ensures take_in { (n : Net) (h : Host) → take_refusal n h ≡ None → IsSound n → IsSound (take_in n h) }

    // a frame is delivered: it is lost, or its packet continues, is joined with others, makes its message whole, can't be delivered, or
    // brings an answer
    ensures deliver { (n : Net) (l : ℕ) (d : Direction) (k : ℕ) → IsSound n → IsSound (stepped n (event.Deliver l d k)) }
{}

/// Distances are notified of the IMPs that there can be only, from the opening on and whatever happens: so a message with
/// addresses, which every message of a host has, can be carried where it goes.
pub fn routed()
    ensures opening { (hosts : List Host) (sites : List (Option ℕ)) (ends : List Ends) → length sites ≤ most_imps + 1 → IsRouted (start.opening_subnet hosts sites ends) }
    ensures offer_out { (n : Net) (m : HostMessage) → IsRouted n → IsRouted (offer_out n m) }
    ensures take_in { (n : Net) (h : Host) → IsRouted n → IsRouted (take_in n h) }
    ensures step { (n : Net) (e : NetEvent) → IsRouted n → IsRouted (stepped n e) }
    ensures quiet_round { (n : Net) → IsRouted n → IsRouted (quiet_round n) }

    // so what is asked of an offer holds of every message of a host
    ensures offers { (n : Net) (m : HostMessage) → IsRouted n → IsSound n → IsHostMessage m → CanGoFrom (imp_at n.imps m.flow.source.imp) m }
{}

/// A sound subnet stays sound where frames are lost or sent again, ends of lines go down and come up, slots are
/// thrown away, and messages are given up or asked about. The log of a sound subnet is a run of the mailboxes.
pub fn sound_events()
    ensures drop { (n : Net) (l : ℕ) (d : Direction) (k : ℕ) → IsSound n → IsSound (stepped n (event.Drop l d k)) }
    ensures resend { (n : Net) (i : ℕ) → IsSound n → IsSound (stepped n (event.Resend i)) }
    ensures route { (n : Net) (i : ℕ) → IsSound n → IsSound (stepped n (event.Route i)) }
    ensures end_down { (n : Net) (i l : ℕ) → IsSound n → IsSound (stepped n (event.EndDown i l)) }
    ensures end_up { (n : Net) (i l : ℕ) → IsSound n → IsSound (stepped n (event.EndUp i l)) }
    ensures abandon { (n : Net) (f : Flow) → IsSound n → IsSound (stepped n (event.Abandon f)) }

    // an outstanding message is given up, where that is not refused
    ensures give_up { (n : Net) (f : Flow) → step_refusal n (event.GiveUp f) ≡ None → IsSound n → IsSound (stepped n (event.GiveUp f)) }

    // an IMP asks what became of an outstanding message, where that is not refused
    ensures ask { (n : Net) (f : Flow) → step_refusal n (event.Ask f) ≡ None → IsSound n → IsSound (stepped n (event.Ask f)) }
    ensures run { (n : Net) → IsSound n → IsRun n.hosts n.log }
{}

/// A sound subnet stays sound where hosts and IMPs stop and start, and where an IMP forgets. In such an event many
/// flows move at once.
pub fn sound_stops()
    // an IMP forgets the numbers of flows from another one
    ensures forget { (n : Net) (at from : ℕ) → step_refusal n (event.Forget at from) ≡ None → IsSound n → IsSound (stepped n (event.Forget at from)) }

    // a host goes down: messages that waited for it give Dead
    ensures host_down { (n : Net) (h : Host) → step_refusal n (event.HostDown h) ≡ None → IsSound n → IsSound (stepped n (event.HostDown h)) }

    // a host comes up, while no message of it is outstanding
    ensures host_up { (n : Net) (h : Host) → step_refusal n (event.HostUp h) ≡ None → IsSound n → IsSound (stepped n (event.HostUp h)) }

    // an IMP stops: its hosts go down in their order, and all that it held is gone
    ensures imp_down { (n : Net) (i : ℕ) → step_refusal n (event.ImpDown i) ≡ None → IsSound n → IsSound (stepped n (event.ImpDown i)) }

    // an IMP starts, where nothing of its flows is alive
    ensures imp_up { (n : Net) (i : ℕ) → step_refusal n (event.ImpUp i) ≡ None → IsSound n → IsSound (stepped n (event.ImpUp i)) }
{}

/// A sound subnet stays sound whatever happens in it.
pub fn sound_steps()
    // any event, where it is not refused
    ensures step { (n : Net) (e : NetEvent) → step_refusal n e ≡ None → IsSound n → IsSound (stepped n e) }

    // all IMPs send their distances and send again, and all frames are delivered
    ensures quiet_round { (n : Net) → IsSound n → IsSound (quiet_round n) }
{}

/// A frame that arrives garbled is lost, as one that is dropped: the same is refused, and the same subnet is left.
pub fn garbled()
    ensures refusal { (n : Net) (l : ℕ) (d : Direction) (k : ℕ)
        → step_refusal n (event.Garble l d k) ≡ step_refusal n (event.Drop l d k) }
    ensures lost { (n : Net) (l : ℕ) (d : Direction) (k : ℕ)
        → stepped n (event.Garble l d k) ≡ stepped n (event.Drop l d k) }
{}

/// When a quiet round may run out of memory.
pub fn round_memory()
    // never where no IMP is up, whatever frames are live
    ensures no_imp { (n : Net) → ((i : ℕ) → imp_at n.imps i ≡ None) → round_grows n ≡ false }

    // and wherever an IMP that is up has an end that is up
    ensures end_up { (n : Net) (i k : ℕ) (s : State) → imp_at n.imps i ≡ Some s → (port_at s.ports k).up ≡ true → round_grows n ≡ true }
{}

/// Lines and their ends.
#[tactic(auto, unfolding(routing::specs::RouteTable::distance_to, link_table::specs::Numbers::is_new, link_table::specs::Numbers::modulus, routing::specs::RouteTable::next_of, link_table::specs::Numbers::oldest, imp_channel::specs::Line::submitted, routing::specs::RouteTable::vector_of, link_table::specs::Numbers::window))]
pub fn worked_lines()
    // a line takes 256 frames each way; one more is lost, whatever it carries, and those that are there stay
    ensures last_place { length (frames_on way.Forward (wire_at (put_one (full_of 255) 1 (on_port 0 (data_frame 0))) 0)) ≡ 256 }
    ensures full { put_one (full_of 256) 1 (on_port 0 (data_frame 0)) ≡ full_of 256 }

    // the other way has places of its own
    ensures other_way { frames_on way.Back (wire_at (put_one (full_of 256) 2 (on_port 0 (data_frame 0))) 0) ≡ data_frame 0 ∷ [] }

    // an IMP's ports are its own lines in order: IMP 3 has lines 1 and 2 at ports 0 and 1
    ensures ports { (port_of triangle 3 1 ≡ 0) × (port_of triangle 3 2 ≡ 1) × (port_of triangle 2 2 ≡ 1) }
    ensures lines { (line_from 0 triangle 3 0 ≡ Some 1) × (line_from 0 triangle 3 1 ≡ Some 2) × (line_from 0 triangle 3 2 ≡ None) }

    // and its frames go the way that leads from there
    ensures ends { frames_on way.Back (wire_at (put_one triangle 3 (on_port 0 ack_frame)) 1) ≡ ack_frame ∷ [] }
{}

/// Frames that are delivered and dropped.
pub fn worked_frames()
    ensures { WorkedFrames }
{}

/// What is alive, and the four refusals that wait for packets to die.
pub fn worked_still_alive()
    ensures { WorkedStillAlive }
{}

/// What an offer looks at before packets: whether its flow is idle. And which number that the destination's IMP keeps is in the
/// way.
pub fn worked_offers()
    // a flow whose message is outstanding, or whose answer waits, begins no number: the offer is blocked, and not `StillAlive`,
    // though the number 32,767 before the last is alive
    ensures outstanding { offer_refusal (pair (Some (outstanding_up_to 32767)) (Some imp_2) (data_frame 0 ∷ []) []) our_message ≡ Some fault.Blocked }
    ensures answered { offer_refusal (pair (Some (answered_up_to 32767)) (Some imp_2) (data_frame 0 ∷ []) []) our_message ≡ Some fault.Blocked }

    // and so it is though the destination's IMP keeps the number that comes next
    ensures outstanding_kept { offer_refusal (pair (Some (outstanding_up_to 65535)) (Some keeping_ours) [] []) our_message ≡ Some fault.Blocked }
    ensures answered_kept { offer_refusal (pair (Some (answered_up_to 65535)) (Some keeping_ours) [] []) our_message ≡ Some fault.Blocked }

    // the number that would be begun is in the way, and not a greater one: number 65,535 was begun last and is kept, and 0 comes next
    ensures kept_above { offer_refusal (pair (Some (begun_up_to 65535)) (Some (keeping_up_to 65535)) [] []) our_message ≡ None }
{}

/// What is alive or remembered at a third IMP. Three IMPs are in a row.
pub fn worked_third_imps()
    // IMP 2 forgets what came from IMP 1: a message of IMP 3's host to a host there is not in the way, nor is its data
    ensures forget_others { step_refusal (row (Some first_in_row) (Some middle_in_row) (Some expecting_at_3) [] (passing_frame ∷ [])) (event.Forget 2 1) ≡ None }

    // it does not forget what came from IMP 3 then
    ensures forget_awaited { step_refusal (row (Some first_in_row) (Some middle_in_row) (Some expecting_at_3) [] []) (event.Forget 2 3) ≡ Some fault.StillAlive }

    // an IMP comes up only where no IMP keeps a number of a flow from it, or waits for an answer from it, not only its neighbours
    ensures start_kept { starting_refusal (row None (Some middle_in_row) (Some keeping_at_3) [] []) 1 ≡ Some fault.StillAlive }
    ensures start_awaited { starting_refusal (row (Some first_in_row) None (Some expecting_at_3) [] []) 2 ≡ Some fault.StillAlive }
    ensures start_others { starting_refusal (row None (Some middle_in_row) (Some expecting_at_3) [] []) 1 ≡ None }
{}

/// An IMP asks what became of a message.
#[tactic(auto, unfolding(routing::specs::RouteTable::distance_to, routing::specs::RouteTable::next_of, imp_channel::specs::Line::submitted, routing::specs::RouteTable::vector_of))]
pub fn worked_asking()
    // the question is put on the line to the destination's IMP. Without a live route nothing is
    ensures goes { (stepped (pair (Some expecting) (Some imp_2) [] []) (event.Ask ours)).lines ≡ wire (ask_frame 0 ∷ []) [] ∷ [] }
    ensures unrouted { (stepped (pair (Some expecting_cut_off) (Some imp_2) [] []) (event.Ask ours)).lines ≡ wire [] [] ∷ [] }

    // a host that isn't there comes first, also at an IMP that is down; then the IMP, then that nothing is outstanding, then the room
    ensures not_there { step_refusal (pair None (Some imp_2) [] []) (event.Ask (flow (host 2 1) (host 0 2) 7)) ≡ Some fault.NoSuch }
    ensures imp_down { step_refusal (pair None (Some imp_2) [] []) (event.Ask ours) ≡ Some fault.IsDown }
    ensures none { step_refusal (pair (Some (record imp_1 { store = packets_to 3 32 })) (Some imp_2) [] []) (event.Ask ours) ≡ Some fault.NotOutstanding }
    ensures full { step_refusal (pair (Some expecting_full) (Some imp_2) [] []) (event.Ask ours) ≡ Some fault.NoRoom }

    // the source itself may be down, without a route no room is called for, and what is alive doesn't matter
    ensures source_down { step_refusal (pair (Some (record expecting { hosts = no_host ∷ no_host ∷ [] })) (Some imp_2) [] []) (event.Ask ours) ≡ None }
    ensures dropped { step_refusal (pair (Some (record expecting_full { routes = expecting_cut_off.routes })) (Some imp_2) [] []) (event.Ask ours) ≡ None }
    ensures asked_again { step_refusal (pair (Some expecting) (Some imp_2) (data_frame 0 ∷ ask_frame 0 ∷ []) []) (event.Ask ours) ≡ None }

    // memory may run out only where the question goes out
    ensures memory { (step_grows (pair (Some expecting) (Some imp_2) [] []) (event.Ask ours) ≡ true) × (step_grows (pair (Some expecting_cut_off) (Some imp_2) [] []) (event.Ask ours) ≡ false) }
{}

/// IMPs that stop and start.
#[tactic(auto, unfolding(routing::specs::RouteTable::distance_to, link_table::specs::Numbers::is_new, link_table::specs::Numbers::modulus, routing::specs::RouteTable::next_of, link_table::specs::Numbers::oldest, imp_channel::specs::Line::submitted, routing::specs::RouteTable::vector_of, link_table::specs::Numbers::window))]
pub fn worked_stops()
    // the hosts that are up go down in their order, which the log has newest first; a host that is down already does not
    ensures downs { (imp_stopped (pair (Some imp_1) (Some imp_2) [] []) 1).log ≡ crossing.Down (host 1 1) ∷ crossing.Down (host 0 1) ∷ [] }
    ensures one_down { (imp_stopped (pair (Some one_host_down) (Some imp_2) [] []) 1).log ≡ crossing.Down (host 1 1) ∷ [] }

    // what the IMP held is gone, and frames on its lines stay
    ensures frames_stay { (imp_stopped (pair (Some sending_ours) (Some imp_2) (data_frame 0 ∷ []) (rfnm_frame 1 ∷ [])) 1).lines ≡ wire (data_frame 0 ∷ []) (rfnm_frame 1 ∷ []) ∷ [] }
    ensures empty { packets (imp_stopped (pair (Some sending_ours) (Some imp_2) [] []) 1) ≡ [] }
    ensures unread { messages (imp_stopped (pair (Some imp_1) (Some serving_ours) [] []) 2) ≡ [] }

    // it starts with all hosts down and all ends of lines up, having heard nothing, and nothing crosses
    ensures started { imp_at (imp_started (pair None (Some imp_2) [] []) 1).imps 1 ≡ Some (record (opening_node 1 2 1) { hosts = no_host ∷ no_host ∷ [] }) }
    ensures silent { (imp_started (pair None (Some imp_2) [] []) 1).log ≡ [] }
{}

/// Which refusal comes first, and when a taking gives something.
pub fn worked_refusals()
    ensures { WorkedRefusals }
{}

/// What a quiet round does to IMPs and frames.
#[tactic(auto, unfolding(routing::specs::RouteTable::distance_to, link_table::specs::Numbers::is_new, link_table::specs::Numbers::modulus, routing::specs::RouteTable::next_of, link_table::specs::Numbers::oldest, imp_channel::specs::Line::submitted, routing::specs::RouteTable::vector_of, link_table::specs::Numbers::window))]
pub fn worked_rounds()
    ensures { WorkedRounds }
{}

/// When memory may run out.
#[tactic(auto, unfolding(routing::specs::RouteTable::distance_to, link_table::specs::Numbers::is_new, link_table::specs::Numbers::modulus, routing::specs::RouteTable::next_of, link_table::specs::Numbers::oldest, imp_channel::specs::Line::submitted, routing::specs::RouteTable::vector_of, link_table::specs::Numbers::window))]
pub fn worked_memory()
    // an IMP that stops: only where a host goes down with it
    ensures stops { (step_grows (pair (Some one_host_down) (Some imp_2) [] []) (event.ImpDown 1) ≡ true) × (step_grows (pair (Some hosts_down) (Some imp_2) [] []) (event.ImpDown 1) ≡ false) }

    // a quiet round: an IMP that is up sends its distances. A frame that goes to an IMP that is down is dropped, and not copied
    ensures told { round_grows (pair (Some imp_1) None [] []) ≡ true }
    ensures ignored { round_grows (pair None None (data_frame 0 ∷ []) (rfnm_frame 0 ∷ [])) ≡ false }

    // where an IMP's only end of a line is down nothing goes out: an acknowledgement has no bits to copy, but a packet has
    ensures end_down { (round_grows (pair None (Some cut_off) (ack_frame ∷ []) []) ≡ false) × (round_grows (pair None (Some cut_off) (data_frame 0 ∷ []) []) ≡ true) }
{}
