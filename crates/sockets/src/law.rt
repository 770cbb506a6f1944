//! What the definitions of the network control program come to: laws of one host, and worked dialogues.

ghost use Rattle.std.specs.Prelude.{◌≡◌, ℕ, List, [], ◌∷◌, ◌++◌, Some, replicate, true};
ghost use Rattle.bit_messages.specs.Octets.{bits_of};
ghost use Rattle.interface.specs.Host.{Host};
ghost use Rattle.interface.specs.declared.address.Flow.{Flow};
ghost use Rattle.interface.specs.declared.crossing.Answer.{Answer};
ghost use Rattle.interface.specs.declared.crossing.Inbound.TheVariants as inbound;
ghost use Rattle.interface.specs.declared.message.HostMessage.{HostMessage};
ghost use Rattle.sockets.specs.Accepting.{accepted};
ghost use Rattle.sockets.specs.Dialogue.{state_of, Ask};
ghost use Rattle.host_pairs.specs.About.{AreAbout};
ghost use Rattle.host_pairs.specs.Allowed.{MayGo};
ghost use Rattle.host_pairs.specs.Pair.{PairState};
ghost use Rattle.sockets.specs.Pairs.{NcpState};
ghost use Rattle.sockets.specs.Requests.{refusal, served_notices};
ghost use Rattle.sockets.specs.declared.peer.Peer.{Peer};
ghost use Rattle.host_pairs.specs.Parcels.{Parcel, Reset, Reply, next_of};
ghost use Rattle.sockets.specs.Sending.{message_for, next_in, offered};
ghost use Rattle.sockets.specs.Worked.{first, second, third, talk, message, control, reset, opening_connection, closing, many_opened};
ghost use Rattle.sockets.specs.declared.fault.NcpFault.TheVariants as fault;
ghost use Rattle.sockets.specs.declared.request.Request.TheVariants as request;
ghost use Rattle.sockets.specs.Laws.WorkedDialogues.{WorkedDialogues};
ghost use Rattle.sockets.specs.Laws.WorkedMessages.{WorkedMessages};
ghost use Rattle.sockets.specs.Laws.Others.{Others};

/// Dialogues of two hosts, and the notices to each of them.
#[tactic(auto, unfolding(bit_messages::specs::Octets::octets_of, ncp_control::specs::Packing::packed_count, ncp_control::specs::Reading::command_of, ncp_control::specs::Reading::read_of, host_pairs::specs::Control::orders_of, crate::specs::Accepting::accepted, crate::specs::Requests::refusal, crate::specs::Requests::served, crate::specs::Requests::served_notices, crate::specs::Sending::next_out, crate::specs::Sending::offered))]
pub fn worked_dialogues()
    ensures { WorkedDialogues }
{}

/// What a host says next, octet by octet.
#[tactic(auto, unfolding(bit_messages::specs::Octets::octets_of, ncp_control::specs::Packing::packed_count, ncp_control::specs::Reading::command_of, ncp_control::specs::Reading::read_of, host_pairs::specs::Control::orders_of, crate::specs::Accepting::accepted, crate::specs::Requests::refusal, crate::specs::Requests::served, crate::specs::Requests::served_notices, crate::specs::Sending::next_out, crate::specs::Sending::offered))]
pub fn worked_messages()
    ensures { WorkedMessages }
{}

/// Why a user is refused.
#[tactic(auto, unfolding(bit_messages::specs::Octets::octets_of, ncp_control::specs::Packing::packed_count, ncp_control::specs::Reading::command_of, ncp_control::specs::Reading::read_of, host_pairs::specs::Control::orders_of, crate::specs::Accepting::accepted, crate::specs::Requests::refusal, crate::specs::Requests::served, crate::specs::Requests::served_notices, crate::specs::Sending::next_out, crate::specs::Sending::offered))]
pub fn worked_refusals()
    ensures over_grant { refusal (state_of (talk (reset ++ opening_connection ++ Ask first (request.Grant 16 65535 0) ∷ [])) first) (request.Grant 16 1 0) ≡ Some fault.OverGrant }
    ensures bad_size { refusal (state_of (talk (reset ++ opening_connection)) second) (request.Send 33 (replicate 7 true)) ≡ Some fault.BadSize }
    ensures wrong_end { refusal (state_of (talk (reset ++ opening_connection)) first) (request.Send 16 (bits_of (255 ∷ []))) ≡ Some fault.WrongEnd }
    ensures no_such_socket { refusal (state_of (talk (reset ++ opening_connection)) second) (request.Send 35 (bits_of (255 ∷ []))) ≡ Some fault.NoSuchSocket }
    ensures in_use { refusal (state_of (talk (reset ++ opening_connection)) second) (request.Listen 33 8) ≡ Some fault.InUse }
    ensures not_contacted { refusal (state_of (talk (reset ++ opening_connection)) first) (request.OpenReceive third 18 33) ≡ Some fault.NotContacted }
    ensures not_open { refusal (state_of (talk (reset ++ Ask first (request.OpenSend second 17 32 8) ∷ [])) first) (request.Send 17 (bits_of (255 ∷ []))) ≡ Some fault.NotOpen }
    ensures closing { refusal (state_of (talk (reset ++ opening_connection ++ Ask first (request.Close 16) ∷ [])) first) (request.Close 16) ≡ Some fault.Closing }

    // thirty receiving ends have all links from 2 to 31
    ensures no_link { refusal (state_of (talk (reset ++ many_opened)) first) (request.OpenReceive second 76 33) ≡ Some fault.NoLink }

    // where several refusals apply, the first of the list is given
    ensures in_order { refusal (state_of (talk (reset ++ opening_connection)) first) (request.OpenSend third 16 33 0) ≡ Some fault.NotContacted }
{}

/// What is about one peer leaves the other pairs as they are.
pub fn others()
    ensures { Others }
{}

/// What goes out of a pair, and when.
pub fn parcels()
    // an RST or an RRP only while nothing is outstanding, and the RST first; all else only of a pair that is ready and owes
    // nothing: commands if link 0 is free, data of an open sending end whose last message is answered, within what waits, what was
    // granted and what one message holds
    ensures goes { (q : PairState) (parcel : Parcel) → next_of q ≡ Some parcel → MayGo q parcel }

    // what goes out of a host goes out of the pair with the peer that it goes to
    ensures next { (p : Peer) (parcel : Parcel) (peers : List Peer) → next_in peers ≡ Some (p, parcel) → next_of p.pair ≡ Some parcel }

    // an RST or an RRP is a message of one octet on link 0
    ensures reset { (own : Host) (p : Peer) → message_for own p Reset ≡ control own p.host (12 ∷ []) }
    ensures reply { (own : Host) (p : Peer) → message_for own p Reply ≡ control own p.host (13 ∷ []) }
{}

/// Whom the host's user is notified of.
pub fn notices()
    // what a message reports is about its source, what an answer reports is about the destination of what is answered
    ensures message { (s : NcpState) (m : HostMessage) (stamp : ℕ) → AreAbout m.flow.source (accepted s (inbound.Message m) stamp).1 }
    ensures answer { (s : NcpState) (kind : Answer) (f : Flow) (stamp : ℕ) → AreAbout f.destination (accepted s (inbound.Answer kind f) stamp).1 }

    // what is reported of what goes out is about the peer that it goes to, and of a contact about its peer
    ensures offer { (s : NcpState) (stamp : ℕ) (p : Peer) (parcel : Parcel) → next_in s.peers ≡ Some (p, parcel) → AreAbout p.host (offered s stamp).1 }
    ensures contact { (s : NcpState) (peer : Host) → AreAbout peer (served_notices s (request.Contact peer)) }
{}
