//! Worked examples of the texts of what is inside a subnet, and of calms. The functions here do nothing: each clause is
//! a row, computed over the definitions.

ghost use Rattle.std.specs.Prelude.{◌≡◌, [], ◌∷◌, None, Some, true, false};
ghost use Rattle.imp_node.specs.Examples.{ack_frame};
ghost use Rattle.interface.specs.declared.event.Direction.TheVariants as way;
ghost use Rattle.interface.specs.declared.event.NetEvent.TheVariants as net;
ghost use Rattle.subnet.specs.Examples.{ask_frame, data_frame, expecting, imp_1, imp_2, keeping_ours};
ghost use Rattle.subnet.specs.Examples.{pair, passing_frame, past_one, rfnm_frame};
ghost use Rattle.script.specs.declared.event.RawEvent.TheVariants as event;
ghost use Rattle.subnet_trace.specs.Fates.{fate_of};
ghost use Rattle.subnet_trace.specs.Parts.{Imp, Line, SamePart, is_named};
ghost use Rattle.subnet_trace.specs.Told.{IsOneNetwork, SameTexts};
ghost use Rattle.trace.specs.declared.fate.Fate.TheVariants as fates;
ghost use Rattle.subnet_trace.specs.Worked.{distances_frame, end_down_at_2, fate_at_1, fate_at_2, full_at_1};
ghost use Rattle.subnet_trace.specs.Worked.{hosts_down_at_2, no_slot_at_2, piece_frame, unmarked_frame, waiting_at_2};
ghost use Rattle.subnet_trace.specs.Laws.{Endings, WorkedCalms, WorkedPackets, WorkedParts, WorkedPlaces, WorkedUntold};

/// Packets, channels, slots and frames.
pub fn worked_packets()
    ensures { WorkedPackets }
{}

/// Hosts, ports, flows, IMPs and lines.
pub fn worked_parts()
    ensures { WorkedParts }
{}

/// Why `IsTold` asks what it asks: in each row two values have one text.
pub fn worked_untold()
    ensures { WorkedUntold }
{}

/// What becomes of frames.
#[tactic(auto, unfolding(routing::specs::RouteTable::distance_to, link_table::specs::Numbers::is_new, link_table::specs::Numbers::modulus, routing::specs::RouteTable::next_of, link_table::specs::Numbers::oldest, routing::specs::RouteTable::vector_of, link_table::specs::Numbers::window))]
pub fn worked_fates()
    // at an IMP or an end of a line that is down
    ensures imp_down { fate_at_2 None (data_frame 0) ≡ Some fates.ImpDown }
    ensures end_down { fate_at_2 (Some end_down_at_2) (data_frame 0) ≡ Some fates.EndDown }

    // frames without a packet
    ensures acks { fate_at_2 (Some imp_2) ack_frame ≡ Some fates.Acks }
    ensures distances { fate_at_2 (Some imp_2) distances_frame ≡ Some fates.Distances }

    // the same packet, where its bit is expected and where it is not
    ensures whole { fate_at_2 (Some imp_2) (data_frame 0) ≡ Some fates.Whole }
    ensures repeat { fate_at_2 (Some past_one) (data_frame 0) ≡ Some fates.Repeat }

    // a packet for another IMP, with room and without
    ensures passing { fate_at_1 (Some imp_1) passing_frame ≡ Some fates.Passing }
    ensures no_room { fate_at_1 (Some full_at_1) passing_frame ≡ Some fates.NoRoom }

    // a piece for a host that is down, and a question about a message that never came
    ensures dead { fate_at_2 (Some hosts_down_at_2) (data_frame 0) ≡ Some fates.Dead }
    ensures never { fate_at_2 (Some imp_2) (ask_frame 0) ≡ Some fates.Never }

    // a piece of a longer message, with a slot for it and without
    ensures piece { fate_at_2 (Some imp_2) piece_frame ≡ Some fates.Piece }
    ensures no_slot { fate_at_2 (Some no_slot_at_2) piece_frame ≡ Some fates.NoRoom }

    // a body without a mark
    ensures unmarked { fate_at_2 (Some imp_2) unmarked_frame ≡ Some fates.Unmarked }

    // a packet with the number noted last, and a question about it: answered by its fate, but not while its message
    // waits
    ensures old { fate_at_2 (Some keeping_ours) (data_frame 0) ≡ Some fates.Old }
    ensures replied { fate_at_2 (Some keeping_ours) (ask_frame 0) ≡ Some fates.Replied }
    ensures unanswered { fate_at_2 (Some waiting_at_2) (ask_frame 0) ≡ Some fates.Old }

    // an answer to the outstanding message, to another number of its flow, and to no outstanding message
    ensures answer { fate_at_1 (Some expecting) (rfnm_frame 0) ≡ Some fates.Answer }
    ensures other_number { fate_at_1 (Some expecting) (rfnm_frame 1) ≡ Some fates.Stale }
    ensures stale { fate_at_1 (Some imp_1) (rfnm_frame 0) ≡ Some fates.Stale }

    // no frame, and a frame that is lost
    ensures none { fate_of (pair None (Some imp_2) [] []) (event.Net (net.Deliver 0 way.Forward 0)) ≡ None }
    ensures dropped { fate_of (pair None (Some imp_2) (data_frame 0 ∷ []) []) (event.Net (net.Drop 0 way.Forward 0)) ≡ None }
{}

/// Which parts are named, and what it means that parts, texts and networks are the same.
pub fn worked_names()
    // an IMP and a line of one number are two parts
    ensures named { (is_named (Imp 2) (Line 0 ∷ Imp 2 ∷ []) ≡ true) × (is_named (Line 1) (Imp 1 ∷ Line 0 ∷ Line 1 ∷ []) ≡ true) }
    ensures not_named { (is_named (Imp 1) (Line 1 ∷ Imp 2 ∷ []) ≡ false) × (is_named (Line 2) (Imp 2 ∷ Line 1 ∷ []) ≡ false) × (is_named (Line 0) [] ≡ false) }

    // an IMP that stopped, and a line with a frame more
    ensures other_imp { SamePart (Imp 1) (pair (Some imp_1) None [] []) (pair None None [] []) → ⊥ }
    ensures other_line { SamePart (Line 0) (pair None None [] []) (pair None None (ack_frame ∷ []) []) → ⊥ }
    ensures other_text { SameTexts (pair None None [] []) (pair None None (ack_frame ∷ []) []) → ⊥ }

    // other hosts, other IMPs, and a line that goes the other way
    ensures other_hosts { IsOneNetwork (pair None None [] []) (record (pair None None [] []) { hosts = [] }) → ⊥ }
    ensures other_sites { IsOneNetwork (pair None None [] []) (record (pair None None [] []) { sites = [] }) → ⊥ }
    ensures other_ends { IsOneNetwork (pair None None [] []) (record (pair None None [] []) { lines = record { a = 2; b = 1; forward = []; back = [] } ∷ [] }) → ⊥ }
{}

/// The elementary events of calms.
#[tactic(auto, unfolding(routing::specs::RouteTable::distance_to, link_table::specs::Numbers::is_new, link_table::specs::Numbers::modulus, routing::specs::RouteTable::next_of, link_table::specs::Numbers::oldest, imp_channel::specs::Line::submitted, routing::specs::RouteTable::vector_of, link_table::specs::Numbers::window))]
pub fn worked_calms()
    ensures { WorkedCalms }
{}

/// Where the trace of a calm ends: with its first still round.
pub fn worked_still()
    ensures { Endings }
{}

/// What is left of a calm at a place.
#[tactic(auto, unfolding(routing::specs::RouteTable::distance_to, link_table::specs::Numbers::is_new, link_table::specs::Numbers::modulus, routing::specs::RouteTable::next_of, link_table::specs::Numbers::oldest, imp_channel::specs::Line::submitted, routing::specs::RouteTable::vector_of, link_table::specs::Numbers::window))]
pub fn worked_places()
    ensures { WorkedPlaces }
{}
