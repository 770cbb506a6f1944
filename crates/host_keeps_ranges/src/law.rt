//! What becomes of the numbers of a host. The functions here do nothing: each clause is a law.

ghost use Rattle.std.specs.Prelude.{◌≡◌, ℕ, ◌^◌, Some, None, List, [], ◌∷◌};
ghost use Rattle.interface.specs.Host.{Host};
ghost use Rattle.interface.specs.declared.address.Flow.{Flow};
ghost use Rattle.interface.specs.declared.crossing.Answer.{Answer};
ghost use Rattle.interface.specs.declared.crossing.Inbound.TheVariants as inbound;
ghost use Rattle.interface.specs.declared.message.HostMessage.{HostMessage};
ghost use Rattle.ncp_control.specs.declared.command.Command.TheVariants as command;
ghost use Rattle.host_pairs.specs.Control.{Legal, Wrong};
ghost use Rattle.host_pairs.specs.Entries.{sending_end};
ghost use Rattle.host_pairs.specs.Parcels.{Parcel};
ghost use Rattle.sockets.specs.Accepting.{accepted};
ghost use Rattle.sockets.specs.Pairs.{NcpState, opening_state};
ghost use Rattle.sockets.specs.Requests.{refusal, served};
ghost use Rattle.sockets.specs.Sending.{next_in, offered};
ghost use Rattle.sockets.specs.declared.peer.Peer.{Peer};
ghost use Rattle.sockets.specs.declared.request.Request.{Request};
ghost use Rattle.sockets.specs.declared.request.Request.TheVariants as request;
ghost use Rattle.host_keeps_ranges.specs.Ranges.{AreCommands, AreOrders, AreSizes, IsAsked, IsInRange, IsLink, IsRanged, IsReadBack};

/// Each call of a host's program keeps its numbers in their ranges.
pub fn ranges()
    // a program that starts has none
    ensures opening { (own : Host) → IsRanged (opening_state own) }

    // what a user asks for, in numbers of their types, and isn't refused
    ensures request { (s : NcpState) (r : Request) → refusal s r ≡ None → IsAsked r → IsRanged s → IsRanged (served s r) }

    // what comes in, whatever is in it, and what goes out
    ensures message { (s : NcpState) (m : HostMessage) (stamp : ℕ) → IsRanged s → IsRanged (accepted s (inbound.Message m) stamp).0 }
    ensures answer { (s : NcpState) (kind : Answer) (f : Flow) (stamp : ℕ) → IsRanged s → IsRanged (accepted s (inbound.Answer kind f) stamp).0 }
    ensures offer { (s : NcpState) (stamp : ℕ) → IsRanged s → IsRanged (offered s stamp).0 }
{}

/// What such a program says is read as it was meant.
pub fn reading()
    // whoever takes its next message reads just the commands that it was made of, if it is a control message
    ensures again { (s : NcpState) (p : Peer) (x : Parcel) → IsRanged s → next_in s.peers ≡ Some (p, x) → IsReadBack p.pair x }
{}

/// Numbers that have room, and numbers that don't.
pub fn worked_ranges()
    // a socket has four octets, a link one, and a listening socket a size of a bit or more
    ensures socket { IsInRange (sending_end (2 ^ 32) 16 8) → ⊥ }
    ensures link { IsLink (Some 256) → ⊥ }
    ensures size { AreSizes (record { socket = 33; size = 0 } ∷ []) → ⊥ }
    ensures grant { IsInRange (record (sending_end 33 16 8) { allocation = record { messages = 65536; bits = 0 } }) → ⊥ }

    // a command whose fields don't hold its numbers isn't one
    ensures command { AreCommands (command.Rts 16 33 32 ∷ []) → ⊥ }
    ensures order { AreOrders (Legal (command.Eco 256) ∷ []) → ⊥ }
    ensures error { AreOrders (Wrong 256 [] ∷ []) → ⊥ }

    // what a user's types hold may be asked for
    ensures asked { IsAsked (request.Grant 16 65535 4294967295) }
    ensures unasked { IsAsked (request.Grant 16 65536 0) → ⊥ }
{}
