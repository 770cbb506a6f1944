//! What the definitions of the network control program come to, rule by rule: one worked row for each reading of a
//! rule that would be wrong. The functions do nothing; each clause is a row.
#![tactic(auto, unfolding(bit_messages::specs::Octets::octets_of, ncp_control::specs::Packing::packed_count, ncp_control::specs::Reading::command_of, ncp_control::specs::Reading::read_of, host_pairs::specs::Control::orders_of, crate::specs::Accepting::accepted, crate::specs::Requests::refusal, crate::specs::Requests::served, crate::specs::Requests::served_notices, crate::specs::Sending::next_out, crate::specs::Sending::offered))]

ghost use Rattle.std.specs.Prelude.{◌≡◌, [], ◌∷◌, ◌++◌, Some, None, replicate, true};
ghost use Rattle.sockets.specs.Memory.{newly_kept};
ghost use Rattle.sockets.specs.Requests.{refusal, served};
ghost use Rattle.sockets.specs.Worked.{first, second, third, control_heard, got, gone, reset, sending};
ghost use Rattle.sockets.specs.Worked.{many_opened, opened_connection, draining};
ghost use Rattle.sockets.specs.Worked.{first_in, second_in, closed, want, rst_out, rst_taken, ready, RTS, STR, CLS};
ghost use Rattle.sockets.specs.Worked.{RST};
ghost use Rattle.sockets.specs.declared.fault.NcpFault.TheVariants as fault;
ghost use Rattle.sockets.specs.declared.request.Request.TheVariants as request;
ghost use Rattle.sockets.specs.Laws.WorkedRequests.{WorkedRequests};
ghost use Rattle.sockets.specs.Laws.WorkedLinks.{WorkedLinks};
ghost use Rattle.sockets.specs.Laws.WorkedClosings.{WorkedClosings};
ghost use Rattle.sockets.specs.Laws.WorkedData.{WorkedData};
ghost use Rattle.sockets.specs.Laws.WorkedResets.{WorkedResets};
ghost use Rattle.sockets.specs.Laws.WorkedPhases.{WorkedPhases};
ghost use Rattle.sockets.specs.Laws.WorkedErrors.{WorkedErrors};

/// What becomes of a request of the peer.
pub fn worked_requests()
    ensures { WorkedRequests }
{}

/// Which link a receiving end has.
pub fn worked_links()
    ensures { WorkedLinks }
{}

/// How a connection ends.
pub fn worked_closings()
    ensures { WorkedClosings }
{}

/// What becomes of data, and of an allocation.
pub fn worked_data()
    ensures { WorkedData }
{}

/// What a reset does, and what ends it.
pub fn worked_resets()
    ensures { WorkedResets }
{}

/// Every command in every phase of a reset.
pub fn worked_phases()
    ensures { WorkedPhases }
{}

/// What is answered by ERR, and what an ERR quotes.
pub fn worked_errors()
    ensures { WorkedErrors }
{}

/// Why a user may not listen or ask for a connection, the first refusal of the list.
pub fn worked_listening()
    // a contact is never refused
    ensures contact { refusal closed (request.Contact first) ≡ None }

    // `listen`: the socket listens or has an own end; the size is 0
    ensures listen_in_use { refusal (served ready (request.Listen 16 8)) (request.Listen 16 0) ≡ Some fault.InUse }
    ensures listen_bad_size { refusal closed (request.Listen 16 0) ≡ Some fault.BadSize }

    // the end of a refused request isn't this host's own, but holds both sockets
    ensures listen_on_refused { refusal (control_heard (second_in reset) first (RTS 16 33 5)).0 (request.Listen 33 8) ≡ None }
    ensures send_on_refused { refusal (control_heard (second_in reset) first (RTS 16 33 5)).0 (request.OpenSend first 33 18 8) ≡ None }
    ensures send_to_refused { refusal (control_heard (second_in reset) first (RTS 16 33 5)).0 (request.OpenSend first 33 16 0) ≡ Some fault.InUse }
    ensures receive_from_refused { refusal (control_heard ready second (STR 33 16 8)).0 (request.OpenReceive second 16 33) ≡ Some fault.InUse }
    ensures close_refused { refusal (control_heard (second_in reset) first (RTS 16 33 5)).0 (request.Close 33) ≡ Some fault.NoSuchSocket }

    // `open_send`: the pair isn't ready; the own socket is even or the foreign one odd; the own socket is in use; the size is 0
    ensures send_not_contacted { refusal rst_taken (request.OpenSend second 16 33 0) ≡ Some fault.NotContacted }
    ensures send_from_even { refusal (served ready (request.Listen 16 8)) (request.OpenSend second 16 32 0) ≡ Some fault.WrongEnd }
    ensures send_to_odd { refusal (served ready (request.Listen 17 8)) (request.OpenSend second 17 33 0) ≡ Some fault.WrongEnd }
    ensures send_in_use { refusal (served ready (request.Listen 17 8)) (request.OpenSend second 17 32 0) ≡ Some fault.InUse }
    ensures send_own_end { refusal (second_in opened_connection) (request.OpenSend first 33 18 0) ≡ Some fault.InUse }
    ensures send_bad_size { refusal ready (request.OpenSend second 17 32 0) ≡ Some fault.BadSize }

    // `open_receive`: likewise, and all links are taken
    ensures receive_not_contacted { refusal rst_out (request.OpenReceive second 17 32) ≡ Some fault.NotContacted }
    ensures receive_at_odd { refusal (served ready (request.Listen 17 8)) (request.OpenReceive second 17 33) ≡ Some fault.WrongEnd }
    ensures receive_from_even { refusal (served ready (request.Listen 16 8)) (request.OpenReceive second 16 32) ≡ Some fault.WrongEnd }
    ensures receive_in_use { refusal (served ready (request.Listen 16 8)) (request.OpenReceive second 16 33) ≡ Some fault.InUse }
    ensures receive_own_end { refusal (first_in opened_connection) (request.OpenReceive second 16 35) ≡ Some fault.InUse }
    ensures receive_with_another_peer { refusal (control_heard (first_in opened_connection) third RST).0 (request.OpenReceive third 16 33) ≡ Some fault.InUse }
    ensures receive_in_use_first { refusal (first_in (reset ++ many_opened)) (request.OpenReceive second 16 33) ≡ Some fault.InUse }

    // `echo`
    ensures echo_closed { refusal closed (request.Echo second 65) ≡ Some fault.NotContacted }
    ensures echo_not_yet { refusal rst_taken (request.Echo second 65) ≡ Some fault.NotContacted }
{}

/// Why a user is refused a call on a connection, the first refusal of the list.
pub fn worked_calls()
    // `send`: the socket is even; it has no own end; the end isn't open; no whole bytes; it drains
    ensures send_wrong_end { refusal closed (request.Send 16 (replicate 7 true)) ≡ Some fault.WrongEnd }
    ensures send_only_listening { refusal (served ready (request.Listen 17 8)) (request.Send 17 (replicate 7 true)) ≡ Some fault.NoSuchSocket }
    ensures send_not_open { refusal (served ready (request.OpenSend second 17 32 8)) (request.Send 17 (replicate 7 true)) ≡ Some fault.NotOpen }
    ensures send_called_off { refusal (control_heard (gone (second_in (opened_connection ++ sending))) first (CLS 16 33)).0 (request.Send 33 (replicate 8 true)) ≡ Some fault.NotOpen }
    ensures send_bad_size { refusal (second_in (opened_connection ++ draining)) (request.Send 33 (replicate 7 true)) ≡ Some fault.BadSize }
    ensures send_closing { refusal (second_in (opened_connection ++ draining)) (request.Send 33 (replicate 8 true)) ≡ Some fault.Closing }

    // `grant`: the socket is odd; no own end; not open, as one that was closed; more than the counters hold, in messages or in bits, less what was used
    ensures grant_wrong_end { refusal closed (request.Grant 33 1 8) ≡ Some fault.WrongEnd }
    ensures grant_no_such_socket { refusal (first_in opened_connection) (request.Grant 18 1 8) ≡ Some fault.NoSuchSocket }
    ensures grant_not_open { refusal (served ready (request.OpenReceive second 16 33)) (request.Grant 16 1 8) ≡ Some fault.NotOpen }
    ensures grant_closed { refusal (served (served (first_in opened_connection) (request.Grant 16 65535 0)) (request.Close 16)) (request.Grant 16 1 8) ≡ Some fault.NotOpen }
    ensures grant_all_messages { refusal (first_in opened_connection) (request.Grant 16 65535 4294967295) ≡ None }
    ensures grant_too_many_bits { refusal (served (first_in opened_connection) (request.Grant 16 0 4294967295)) (request.Grant 16 0 1) ≡ Some fault.OverGrant }
    ensures grant_what_was_used { refusal (got (served (first_in opened_connection) (request.Grant 16 65535 8)) second 2 (0 ∷ 8 ∷ 0 ∷ 1 ∷ 0 ∷ 65 ∷ [])).0 (request.Grant 16 1 4294967295) ≡ None }

    // `ask_back`: those of `grant` but the last
    ensures ask_back_wrong_end { refusal closed (request.AskBack 33 1 1) ≡ Some fault.WrongEnd }
    ensures ask_back_no_such_socket { refusal (served ready (request.Listen 16 8)) (request.AskBack 16 1 1) ≡ Some fault.NoSuchSocket }
    ensures ask_back_not_open { refusal (served ready (request.OpenReceive second 16 33)) (request.AskBack 16 1 1) ≡ Some fault.NotOpen }
    ensures ask_back_closed { refusal (served (first_in opened_connection) (request.Close 16)) (request.AskBack 16 1 1) ≡ Some fault.NotOpen }

    // `interrupt`: no own end; not open; it drains
    ensures interrupt_no_such_socket { refusal (served ready (request.Listen 16 8)) (request.Interrupt 16) ≡ Some fault.NoSuchSocket }
    ensures interrupt_not_open { refusal (served ready (request.OpenSend second 17 32 8)) (request.Interrupt 17) ≡ Some fault.NotOpen }
    ensures interrupt_closed { refusal (served (first_in opened_connection) (request.Close 16)) (request.Interrupt 16) ≡ Some fault.NotOpen }
    ensures interrupt_closing { refusal (second_in (opened_connection ++ draining)) (request.Interrupt 33) ≡ Some fault.Closing }

    // `close`: it has no own end and doesn't listen; it was closed at this end, or at the other, open or not
    ensures close_no_such_socket { refusal ready (request.Close 16) ≡ Some fault.NoSuchSocket }
    ensures close_listening { refusal (served ready (request.Listen 16 8)) (request.Close 16) ≡ None }
    ensures close_not_open { refusal (served ready (request.OpenReceive second 16 33)) (request.Close 16) ≡ None }
    ensures close_draining { refusal (second_in (opened_connection ++ draining)) (request.Close 33) ≡ Some fault.Closing }
    ensures close_called_off { refusal (control_heard (gone (second_in (opened_connection ++ sending))) first (CLS 16 33)).0 (request.Close 33) ≡ Some fault.Closing }
{}

/// How much more a host keeps once a request is served.
pub fn worked_memory()
    // a first contact makes the peer known, one before the RST has gone out keeps nothing more, and one of a ready pair gives a notice
    ensures contact_known { newly_kept closed (request.Contact second) ≡ 1 }
    ensures contact_again { newly_kept want (request.Contact second) ≡ 0 }
    ensures contact_ready { newly_kept ready (request.Contact second) ≡ 1 }

    // bits, where there are any
    ensures send_bits { newly_kept (second_in opened_connection) (request.Send 33 (replicate 8 true)) ≡ 8 }
    ensures send_nothing { newly_kept (second_in opened_connection) (request.Send 33 []) ≡ 0 }

    // a receiving end queues its CLS at once, a sending end where nothing waits; one that drains doesn't, nor does a socket that listens
    ensures close_receiver { newly_kept (first_in opened_connection) (request.Close 16) ≡ 1 }
    ensures close_sender { newly_kept (second_in opened_connection) (request.Close 33) ≡ 1 }
    ensures close_draining { newly_kept (served (second_in opened_connection) (request.Send 33 (replicate 8 true))) (request.Close 33) ≡ 0 }
    ensures close_listening { newly_kept (served ready (request.Listen 16 8)) (request.Close 16) ≡ 0 }

    // a socket that listens, or a command
    ensures listen { newly_kept closed (request.Listen 16 8) ≡ 1 }
    ensures echo { newly_kept ready (request.Echo second 65) ≡ 1 }
{}
