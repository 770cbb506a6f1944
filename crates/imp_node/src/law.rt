//! What an IMP promises beyond its calls being exact, as laws over the definitions that they cite. The
//! functions here do nothing: each clause is a law.
//!
//! The functions `worked_..` state the rules by examples: each row is one that another reading of its rule
//! would fail.

ghost use Rattle.std.specs.Prelude.{◌≡◌, ℕ, true, false, [], ◌∷◌, map, All, Some, None};
ghost use Rattle.interface.specs.declared.address.Flow.{Flow};
ghost use Rattle.interface.specs.declared.message.HostMessage.{HostMessage};
ghost use Rattle.imp_channel.specs.Holding.{carried_by};
ghost use Rattle.imp_channel.specs.declared.frame.Frame.{Frame};
ghost use Rattle.interface.specs.declared.carrier.CarrierFault.TheVariants as fault;
ghost use Rattle.interface.specs.declared.crossing.Answer.TheVariants as answer;
ghost use Rattle.packetiser.specs.declared.packet.PacketKind.TheVariants as kind;
ghost use Rattle.imp_node.specs.Arrival.{Old, arrival, from_line, ignored};
ghost use Rattle.imp_node.specs.Examples.{host, flow, only_packet, packets_to, packet_frame, ack_frame, imp, busy};
ghost use Rattle.imp_node.specs.Examples.{serving, slots_of, empty_message, sent_imp, sent_answered, sent_never, noting, after_question, told_back, question_from, sent_within};
ghost use Rattle.imp_node.specs.Flows.{answer_packet, is_idle, noted};
ghost use Rattle.imp_node.specs.Lines.{on_port, route, claim, resend, end_down, end_up};
ghost use Rattle.imp_node.specs.Asking.{ask, ask_refusal};
ghost use Rattle.imp_node.specs.Contents.{packets};
ghost use Rattle.imp_node.specs.Making.{Leaves, from_host_makes, from_line_makes, to_host_makes, ask_makes, host_down_makes};
ghost use Rattle.imp_node.specs.Offering.{begins, from_host, from_host_refusal};
ghost use Rattle.imp_node.specs.Queries.{outstanding, kept};
ghost use Rattle.imp_node.specs.State.{State, host_at, opening_node};
ghost use Rattle.imp_node.specs.Stopping.{give_up, give_up_refusal, host_up_refusal, forget, abandon, host_down, host_up};
ghost use Rattle.imp_node.specs.Sides.{IsImp};
ghost use Rattle.std.specs.FinMap as map;
ghost use Rattle.link_table.specs.declared.destination.Fate.TheVariants as fate;
ghost use Rattle.packetiser.specs.PacketFields.{IsPacket};
ghost use Rattle.imp_node.specs.Taking.{to_host};
ghost use Rattle.imp_node.specs.Turns.{from_line_grows, to_host_grows, resend_grows, route_grows, end_down_grows, end_up_grows, give_up_grows, ask_grows, forget_grows, abandon_grows, host_down_grows};
ghost use Rattle.imp_node.specs.Turns.{host_up_grows};
ghost use Rattle.imp_node.specs.Laws.Moving.{Moving};
ghost use Rattle.imp_node.specs.Laws.Asking.{Asking};
ghost use Rattle.imp_node.specs.Laws.WorkedPump.{WorkedPump};
ghost use Rattle.imp_node.specs.Laws.WorkedRoom.{WorkedRoom};
ghost use Rattle.imp_node.specs.Laws.WorkedRoutes.{WorkedRoutes};
ghost use Rattle.imp_node.specs.Laws.WorkedArrivals.{WorkedArrivals};
ghost use Rattle.imp_node.specs.Laws.WorkedHosts.{WorkedHosts};
ghost use Rattle.imp_node.specs.Laws.WorkedFates.{WorkedFates};
ghost use Rattle.imp_node.specs.Laws.WorkedAnswers.{WorkedAnswers};

/// Which packets are in an IMP, and in the frames that it puts on lines, after each call: those that were in
/// it, and those that the rule of the call makes. Nothing else comes about.
pub fn holding()
    // a message that goes over lines is cut into its packets
    ensures from_host { (s : State) (m : HostMessage) → Leaves s (from_host_makes s m) (from_host s m) }

    // a frame brings its packet; a piece that can't be delivered gives Dead, and a question gives the answer to it
    ensures from_line { (s : State) (k : ℕ) (f : Frame) → Leaves s (from_line_makes s f) (from_line s k f) }

    // a message that is taken gives its RFNM, and one that waits for a host that goes down gives Dead, where the source is at
    // another IMP
    ensures to_host { (s : State) (h : ℕ) → Leaves s (to_host_makes s h) (to_host s h) }
    ensures host_down { (s : State) (h : ℕ) → Leaves s (host_down_makes s h) (host_down s h) }

    // a question is made about the outstanding message
    ensures ask { (s : State) (f : Flow) → Leaves s (ask_makes s f) (ask s f) }

    // no other call makes a packet
    ensures resend { (s : State) → Leaves s [] (resend s) }
    ensures route { (s : State) → Leaves s [] (route s) }
    ensures claim { (s : State) → Leaves s [] (claim s) }
    ensures end_down { (s : State) (k : ℕ) → Leaves s [] (end_down s k) }
    ensures end_up { (s : State) (k : ℕ) → Leaves s [] (end_up s k) }
    ensures give_up { (s : State) (f : Flow) → Leaves s [] (give_up s f) }
    ensures forget { (s : State) (imp : ℕ) → Leaves s [] (forget s imp) }
    ensures abandon { (s : State) (f : Flow) → Leaves s [] (abandon s f) }
    ensures host_up { (s : State) (h : ℕ) → Leaves s [] (host_up s h) }

    // an IMP begins without any
    ensures opening { (own hosts ports : ℕ) → packets (opening_node own hosts ports) ≡ [] }
{}

/// How each call moves the flows of an IMP: what becomes of the named flow at its source and at its
/// destination, and that all other flows stay as they were.
pub fn moving()
    ensures { Moving }
{}

/// What holds of an IMP that was not short of memory, after each call if it held before: it has its number,
/// each answer waits for the source of its flow and each message for its destination, and its slots hold
/// pieces of one message each.
pub fn sound()
    ensures opening { (own hosts ports : ℕ) → IsImp own (opening_node own hosts ports) }

    // from a host of the IMP
    ensures from_host { (imp : ℕ) (s : State) (m : HostMessage) → from_host_refusal s m ≡ None → IsImp imp s → IsImp imp (from_host s m).state }

    // a frame whose packet, if it has one, is a packet by the format
    ensures from_line { (imp : ℕ) (s : State) (k : ℕ) (f : Frame) → All IsPacket (carried_by f.content) → IsImp imp s → IsImp imp (from_line s k f).state }
    ensures to_host { (imp : ℕ) (s : State) (h : ℕ) → IsImp imp s → IsImp imp (to_host s h).state }
    ensures resend { (imp : ℕ) (s : State) → IsImp imp s → IsImp imp (resend s).state }
    ensures route { (imp : ℕ) (s : State) → IsImp imp s → IsImp imp (route s).state }
    ensures claim { (imp : ℕ) (s : State) → IsImp imp s → IsImp imp (claim s).state }
    ensures end_down { (imp : ℕ) (s : State) (k : ℕ) → IsImp imp s → IsImp imp (end_down s k).state }
    ensures end_up { (imp : ℕ) (s : State) (k : ℕ) → IsImp imp s → IsImp imp (end_up s k).state }
    ensures give_up { (imp : ℕ) (s : State) (f : Flow) → give_up_refusal s f ≡ None → IsImp imp s → IsImp imp (give_up s f).state }
    ensures forget { (imp : ℕ) (s : State) (other : ℕ) → IsImp imp s → IsImp imp (forget s other).state }
    ensures abandon { (imp : ℕ) (s : State) (f : Flow) → IsImp imp s → IsImp imp (abandon s f).state }
    ensures ask { (imp : ℕ) (s : State) (f : Flow) → IsImp imp s → IsImp imp (ask s f).state }
    ensures host_down { (imp : ℕ) (s : State) (h : ℕ) → IsImp imp s → IsImp imp (host_down s h).state }
    ensures host_up { (imp : ℕ) (s : State) (h : ℕ) → IsImp imp s → IsImp imp (host_up s h).state }
{}

/// What the answers to queries say.
pub fn asking()
    ensures { Asking }
{}

/// Waiting packets go out in order, into the lowest free channels of their routes' lines.
#[tactic(auto, unfolding(routing::specs::RouteTable::distance_to, routing::specs::RouteTable::next_of, imp_channel::specs::Line::submitted, routing::specs::RouteTable::vector_of))]
pub fn worked_pump()
    ensures { WorkedPump }
{}

/// The store has 32 places, those in channels counted, and a frame without room counts as lost.
pub fn worked_room()
    ensures { WorkedRoom }
{}

/// What an IMP announces of routes, and that packets find another one.
#[tactic(auto, unfolding(routing::specs::RouteTable::distance_to, routing::specs::RouteTable::next_of, imp_channel::specs::Line::submitted, routing::specs::RouteTable::vector_of))]
pub fn worked_routes()
    ensures { WorkedRoutes }
{}

/// What a fresh packet for a host of the IMP comes to. Host 0 at IMP 1 is served over port 0, from IMP 2.
pub fn worked_arrivals()
    ensures { WorkedArrivals }
{}

/// What a question about a message comes to. Host 0 at IMP 1 is served over port 0, from host 0 at IMP 2 on
/// link 2.
pub fn worked_questions()
    // by the fate of the number noted last it is answered by RFNM, Dead or Never; while the message waits it is only
    // acknowledged
    ensures taken { (after_question 5 (noting 5 fate.Taken)).frames ≡ on_port 0 ack_frame ∷ told_back kind.Rfnm 5 ∷ [] }
    ensures dead { (after_question 5 (noting 5 fate.Dead)).frames ≡ on_port 0 ack_frame ∷ told_back kind.Dead 5 ∷ [] }
    ensures never { (after_question 5 (noting 5 fate.Never)).frames ≡ on_port 0 ack_frame ∷ told_back kind.Never 5 ∷ [] }
    ensures waits { (after_question 5 (noting 5 fate.Waits)).frames ≡ on_port 0 ack_frame ∷ [] }

    // so it is where another number was noted since
    ensures other_number { (after_question 4 (noting 5 fate.Taken)).frames ≡ on_port 0 ack_frame ∷ [] }

    // a new number is noted as one that never came, and its source is informed so
    ensures new_number { (after_question 6 (noting 5 fate.Taken)).frames ≡ on_port 0 ack_frame ∷ told_back kind.Never 6 ∷ [] }
    ensures first_number { (after_question 0 (serving [])).frames ≡ on_port 0 ack_frame ∷ told_back kind.Never 0 ∷ [] }
    ensures noted { map.get (after_question 6 (noting 5 fate.Taken)).state.kept (flow (host 0 2) (host 0 1) 2) ≡ Some (record { number = 6; fate = fate.Never }) }

    // after that the message's packet is old, and a question is answered so again
    ensures too_late { arrival (after_question 0 (serving [])).state (only_packet (flow (host 0 2) (host 0 1) 2) 0) ≡ Old }
    ensures asked_again { (after_question 6 (noting 6 fate.Never)).frames ≡ on_port 0 ack_frame ∷ told_back kind.Never 6 ∷ [] }

    // once the number was forgotten nothing is known of its message: it is a new one
    ensures forgotten { (after_question 5 (forget (noting 5 fate.Taken) 2).state).frames ≡ on_port 0 ack_frame ∷ told_back kind.Never 5 ∷ [] }

    // a host that is down makes no difference
    ensures host_is_down { (after_question 0 (host_down (serving []) 0).state).frames ≡ on_port 0 ack_frame ∷ told_back kind.Never 0 ∷ [] }

    // noting clears the flow's slot, and no other; an answer by the fate clears none; a question has no slot itself
    ensures slot_cleared { (from_line (record (serving []) { slots = slots_of 2 }) 0 (packet_frame 0 (answer_packet kind.Ask (flow (host 0 2) (host 0 1) 1) 0))).state.slots ≡ slots_of 1 }
    ensures slot_kept { (after_question 5 (record (noting 5 fate.Taken) { slots = slots_of 3 })).state.slots ≡ slots_of 3 }
    ensures no_slot { (after_question 0 (serving [])).state.slots ≡ [] }

    // beside 32 packets the answer has no room, and the frame counts as lost: nothing is noted. What isn't answered calls for
    // no room, and without a live route to the source the answer is dropped
    ensures no_room { question_from 3 (busy 32) ≡ ignored (busy 32) }
    ensures no_room_to_reply { question_from 3 (noted (flow (host 0 3) (host 0 1) 5) 0 fate.Taken (busy 32)) ≡ ignored (noted (flow (host 0 3) (host 0 1) 5) 0 fate.Taken (busy 32)) }
    ensures silence_has_room { (question_from 3 (noted (flow (host 0 3) (host 0 1) 5) 0 fate.Waits (busy 32))).frames ≡ on_port 1 ack_frame ∷ [] }
    ensures no_route { (question_from 5 (busy 32)).frames ≡ on_port 1 ack_frame ∷ [] }
    ensures noted_all_the_same { kept (question_from 5 (busy 32)).state (flow (host 0 5) (host 0 1) 5) ≡ Some 0 }
{}

/// What an IMP asks, and what comes of the answer. Host 0 at IMP 1 has sent an empty message to host 0 at
/// IMP 2 on link 7.
#[tactic(auto, unfolding(routing::specs::RouteTable::distance_to, routing::specs::RouteTable::next_of, imp_channel::specs::Line::submitted))]
pub fn worked_asking()
    // the question goes out with the message's number, also where the host is down
    ensures asks { (ask sent_imp (flow (host 0 1) (host 0 2) 7)).frames ≡ on_port 0 (packet_frame 1 (answer_packet kind.Ask (flow (host 0 1) (host 0 2) 7) 0)) ∷ [] }
    ensures asks_down { (ask (host_down sent_imp 0).state (flow (host 0 1) (host 0 2) 7)).frames ≡ on_port 0 (packet_frame 1 (answer_packet kind.Ask (flow (host 0 1) (host 0 2) 7) 0)) ∷ [] }

    // it is one packet, and needs one place
    ensures one_place { ask_refusal (record sent_imp { store = packets_to 2 30 }) (flow (host 0 1) (host 0 2) 7) ≡ None }
    ensures no_room { ask_refusal (record sent_imp { store = packets_to 2 31 }) (flow (host 0 1) (host 0 2) 7) ≡ Some fault.NoRoom }

    // before that: a host of another IMP, a message that is not outstanding
    ensures elsewhere { ask_refusal (record sent_imp { store = packets_to 2 31 }) (flow (host 0 2) (host 0 1) 7) ≡ Some fault.NoSuch }
    ensures not_outstanding { ask_refusal (record (give_up sent_imp (flow (host 0 1) (host 0 2) 7)).state { store = packets_to 2 31 }) (flow (host 0 1) (host 0 2) 7) ≡ Some fault.NotOutstanding }

    // without a live route, and within one IMP, nothing is asked, and nothing refused
    ensures without_route { ask (end_down sent_imp 0).state (flow (host 0 1) (host 0 2) 7) ≡ record { state = (end_down sent_imp 0).state; frames = [] } }
    ensures full_without_route { ask_refusal (record (end_down sent_imp 0).state { store = packets_to 2 32 }) (flow (host 0 1) (host 0 2) 7) ≡ None }
    ensures within { ask sent_within (flow (host 0 1) (host 1 1) 7) ≡ record { state = sent_within; frames = [] } }
    ensures full_within { ask_refusal (record sent_within { store = packets_to 2 32 }) (flow (host 0 1) (host 1 1) 7) ≡ None }

    // Never with its number gives NotTaken, once, and with another number nothing
    ensures not_taken { (host_at (sent_never 0 sent_imp).state 0).answers ≡ record { kind = answer.NotTaken; flow = (flow (host 0 1) (host 0 2) 7) } ∷ [] }
    ensures ended { outstanding (sent_never 0 sent_imp).state (flow (host 0 1) (host 0 2) 7) ≡ None }
    ensures stale { (host_at (sent_never 1 sent_imp).state 0).answers ≡ [] }

    // nothing waits for a host that is down, and its flow is idle
    ensures nobody { (host_at (sent_never 0 (host_down sent_imp 0).state).state 0).answers ≡ [] }
    ensures idle { is_idle (sent_never 0 (host_down sent_imp 0).state).state (flow (host 0 1) (host 0 2) 7) ≡ true }
{}

/// Hosts at IMP 1: what they send, take and leave to others.
pub fn worked_hosts()
    ensures { WorkedHosts }
{}

/// The flows of an IMP's hosts: what is begun, answered and given up. Host 0 at IMP 1 has sent an empty
/// message to host 0 at IMP 2 on link 7.
#[tactic(auto, unfolding(routing::specs::RouteTable::distance_to, routing::specs::RouteTable::next_of, imp_channel::specs::Line::submitted))]
pub fn worked_flows()
    // it is outstanding with number 0, and the next one is blocked
    ensures begun { outstanding sent_imp (flow (host 0 1) (host 0 2) 7) ≡ Some 0 }
    ensures blocked { from_host_refusal sent_imp (empty_message (flow (host 0 1) (host 0 2) 7)) ≡ Some fault.Blocked }

    // an RFNM with its number waits for the host, and ends it; the next message is blocked until the host took it
    ensures rfnm { (host_at (sent_answered 0).state 0).answers ≡ record { kind = answer.Rfnm; flow = flow (host 0 1) (host 0 2) 7 } ∷ [] }
    ensures ended { outstanding (sent_answered 0).state (flow (host 0 1) (host 0 2) 7) ≡ None }
    ensures waits { begins (sent_answered 0).state (flow (host 0 1) (host 0 2) 7) ≡ false }
    ensures again { begins (to_host (sent_answered 0).state 0).state (flow (host 0 1) (host 0 2) 7) ≡ true }

    // an RFNM with another number is acknowledged, and changes nothing of the flow
    ensures stale { (host_at (sent_answered 1).state 0).answers ≡ [] }
    ensures still { outstanding (sent_answered 1).state (flow (host 0 1) (host 0 2) 7) ≡ Some 0 }

    // given up, it gives Incomplete, once
    ensures given_up { (host_at (give_up sent_imp (flow (host 0 1) (host 0 2) 7)).state 0).answers ≡ record { kind = answer.Incomplete; flow = flow (host 0 1) (host 0 2) 7 } ∷ [] }
    ensures once { give_up_refusal (give_up sent_imp (flow (host 0 1) (host 0 2) 7)).state (flow (host 0 1) (host 0 2) 7) ≡ Some fault.NotOutstanding }
    ensures elsewhere { give_up_refusal sent_imp (flow (host 0 2) (host 0 1) 7) ≡ Some fault.NoSuch }

    // a host that is down gets no answer, and its flow is idle at once
    ensures nobody { (host_at (give_up (host_down sent_imp 0).state (flow (host 0 1) (host 0 2) 7)).state 0).answers ≡ [] }
    ensures idle { is_idle (give_up (host_down sent_imp 0).state (flow (host 0 1) (host 0 2) 7)).state (flow (host 0 1) (host 0 2) 7) ≡ true }
{}

/// What is kept of messages that were not taken, and what a repeat brings. Host 0 at IMP 1 is served over port 0, from host 0 at
/// IMP 2 on link 2.
pub fn worked_fates()
    ensures { WorkedFates }
{}

/// What comes up again, and what is thrown away.
#[tactic(auto, unfolding(routing::specs::RouteTable::distance_to, routing::specs::RouteTable::next_of, imp_channel::specs::Line::submitted))]
pub fn worked_restarts()
    // a host comes up only once none of its messages is outstanding
    ensures unsettled { host_up_refusal (host_down sent_imp 0).state 0 ≡ Some fault.Unsettled }
    ensures settled { host_up_refusal (give_up (host_down sent_imp 0).state (flow (host 0 1) (host 0 2) 7)).state 0 ≡ None }
    ensures others_unsettled { host_up_refusal (host_down sent_imp 1).state 1 ≡ None }

    // then it is up, and nothing waits for it
    ensures host_comes_up { host_up (host_down (serving []) 0).state 0 ≡ record { state = serving []; frames = [] } }

    // the answer that waited for it when it went down is gone, and its flow is idle
    ensures answer_cleared { is_idle (host_down (sent_answered 0).state 0).state (flow (host 0 1) (host 0 2) 7) ≡ true }

    // an end that comes up is as just reset, has heard nothing, and sends nothing
    ensures end_comes_up { end_up (end_down (serving []) 0).state 0 ≡ record { state = record (serving []) { routes = record { own = 1; heard = None ∷ []; claims = false } }; frames = [] } }

    // one slot is thrown away, and nothing else changes: no number is noted
    ensures slot_thrown_away { abandon (record (serving []) { slots = slots_of 2 }) (flow (host 0 2) (host 0 1) 1) ≡ record { state = record (serving []) { slots = slots_of 1 }; frames = [] } }
{}

/// Calls that can't run out of memory, since nothing grows.
pub fn worked_memory()
    // a frame that only acknowledges, where nothing waits; a host that takes nothing, or an answer
    ensures from_line { from_line_grows (serving []) 0 ack_frame ≡ false }
    ensures to_host { (to_host_grows (serving []) 0 ≡ false) × (to_host_grows (sent_answered 0).state 0 ≡ false) }

    // no channel is busy, no end of a line is up
    ensures resend { resend_grows (serving []) ≡ false }
    ensures route { route_grows (end_down (serving []) 0).state ≡ false }
    ensures end_down { end_down_grows (serving []) 0 ≡ false }
    ensures end_up { end_up_grows (end_down (serving []) 0).state 0 ≡ false }

    // the source is down, so that no Incomplete waits; numbers and a slot are dropped
    ensures give_up { give_up_grows (host_down sent_imp 0).state (flow (host 0 1) (host 0 2) 7) ≡ false }
    ensures forget { forget_grows (serving []) 2 ≡ false }

    // nothing is asked without a live route
    ensures ask { ask_grows (end_down sent_imp 0).state (flow (host 0 1) (host 0 2) 7) ≡ false }
    ensures abandon { abandon_grows (record (serving []) { slots = slots_of 1 }) (flow (host 0 2) (host 0 1) 0) ≡ false }

    // no message waits for the host
    ensures host_down { host_down_grows (serving []) 0 ≡ false }
    ensures host_up { host_up_grows (host_down (serving []) 0).state 0 ≡ false }
{}

/// The refusals of the other calls, and what an IMP says that it holds.
pub fn worked_answers()
    ensures { WorkedAnswers }
{}
