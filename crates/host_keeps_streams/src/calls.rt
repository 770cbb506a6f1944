//! What the calls of a host's program are on each link: lists of moves of the law. The functions here do nothing: each clause is a law. In all
//! of them `name` identifies the connection of two sockets by a number.

ghost use Rattle.std.specs.Prelude.{◌≡◌, ℕ, true, false, [], ◌∷◌, Some};
ghost use Rattle.stream_law.specs.Receivers as receivers;
ghost use Rattle.stream_law.specs.Senders as senders;
ghost use Rattle.host_pairs.specs.Commands.{asked_on_link};
ghost use Rattle.host_pairs.specs.Entries.{new_entry, receiving_end, refused_end, sending_end};
ghost use Rattle.host_pairs.specs.declared.entry.Closing.TheVariants as closing;
ghost use Rattle.host_keeps_streams.specs.Closings.{all_sent};
ghost use Rattle.host_keeps_streams.specs.Ends.{HasReceiver};
ghost use Rattle.host_keeps_streams.specs.Formed.{AreSound, IsFormed};
ghost use Rattle.host_keeps_streams.specs.Names.{AreApart, IsSending, is_among, numbers};
ghost use Rattle.host_keeps_streams.specs.Laws.Calls.{Answering, CallsOpening, ClosingEnds, Commands, Data, GoingOut};
ghost use Rattle.host_keeps_streams.specs.Laws.Calls.{Naming, Using};
ghost use Rattle.host_keeps_streams.specs.Laws.Worked.{WorkedCommands, WorkedMoves};

/// Each command of the peer is, on each link, a list of the law's moves: `received_by` gives those of the receiver, `sent_by` those of the sender.
pub fn commands()
    ensures { Commands }
{}

/// Names of connections may change where no end has them: so sockets whose end is gone get a new number.
pub fn naming()
    ensures { Naming }
{}

/// A message of data of the peer, on any link, is a matter of the receiver of its link.
pub fn data()
    ensures { Data }
{}

/// What goes out of a host's program: a command, where a CLS is that of an end which said it, or bytes.
pub fn going_out()
    ensures { GoingOut }
{}

/// The answer to what was sent on a link. The sender of that link is notified, and each end that has to close does so.
pub fn answering()
    ensures { Answering }
{}

/// A user asks for an end, which has a new number.
pub fn opening()
    ensures { CallsOpening }
{}

/// A user asks something of an end: to grant and to ask back where it receives, and to send.
pub fn using()
    ensures { Using }
{}

/// A user closes an end: one that receives closes on its link, and each sending end that has to close then does so.
pub fn closing_ends()
    ensures { ClosingEnds }
{}

/// Where a stay begins there are no ends, and the law is at its opening.
pub fn beginning()
    ensures received { (name : ℕ → ℕ → ℕ) (link : ℕ) → HasReceiver name link [] receivers.opening_receiver }
    ensures sent { (name : ℕ → ℕ → ℕ) (link : ℕ) → IsSending name link [] senders.opening_sender }
    ensures sound { (name : ℕ → ℕ → ℕ) → AreSound name [] }
{}

/// Numbers of connections. Here the name of a connection is its own socket.
pub fn worked_names()
    ensures among { (is_among 3 (1 ∷ 3 ∷ []) ≡ true) × (is_among 2 (1 ∷ 3 ∷ []) ≡ false) }
    ensures numbers { numbers (λ own foreign. own) (receiving_end 16 33 5 ∷ sending_end 33 16 8 ∷ []) ≡ 16 ∷ 33 ∷ [] }
    ensures apart { AreApart (1 ∷ 3 ∷ 2 ∷ []) }
    ensures twice { AreApart (1 ∷ 3 ∷ 1 ∷ []) → ⊥ }

    // what was said of a sending end is known on every link: its byte size, and its CLS once that waits to go out
    ensures known { IsSending (λ own foreign. own) 5 (sending_end 33 16 8 ∷ []) (senders.moved (senders.Ask 33 8) senders.opening_sender) }
    ensures unsaid { IsSending (λ own foreign. own) 5 (sending_end 33 16 8 ∷ []) senders.opening_sender → ⊥ }
    ensures other_size { IsSending (λ own foreign. own) 5 (sending_end 33 16 8 ∷ []) (senders.moved (senders.Ask 33 36) senders.opening_sender) → ⊥ }
    ensures unclosed { IsSending (λ own foreign. own) 5 (record (sending_end 33 16 8) { closing = closing.Queued } ∷ []) (senders.moved (senders.Ask 33 8) senders.opening_sender) → ⊥ }
    ensures closed { IsSending (λ own foreign. own) 5 (record (sending_end 33 16 8) { closing = closing.Queued } ∷ []) (all_sent (senders.Ask 33 8 ∷ senders.Close 33 ∷ []) senders.opening_sender) }

    // of an end that receives the law's sender knows nothing
    ensures receives { IsSending (λ own foreign. own) 5 (record (receiving_end 16 33 5) { size = Some 8; closing = closing.Queued } ∷ []) senders.opening_sender }
{}

/// How far ends have come.
pub fn worked_formed()
    ensures new { AreSound (λ own foreign. own) (sending_end 33 16 8 ∷ receiving_end 16 33 5 ∷ refused_end 18 35 7 ∷ []) }
    ensures linked { IsFormed (asked_on_link 7 5 (sending_end 33 16 8)) }

    // two ends with one number; an end that sends and has a link before its partner's request, or no byte size; one that closed both ways and stays
    ensures twins { AreSound (λ own foreign. 1) (sending_end 33 16 8 ∷ receiving_end 16 33 5 ∷ []) → ⊥ }
    ensures early { IsFormed (record (sending_end 33 16 8) { link = Some 5 }) → ⊥ }
    ensures sizeless { IsFormed (new_entry 33 16) → ⊥ }
    ensures granted { IsFormed (record (sending_end 33 16 8) { allocation = record { messages = 1; bits = 0 } }) → ⊥ }
    ensures past { IsFormed (record (sending_end 33 16 8) { closing = closing.Sent; partner_closed = true }) → ⊥ }

    // one without a link that heard a CLS and waits
    ensures waiting { IsFormed (record (sending_end 33 16 8) { closing = closing.Due; partner_closed = true }) → ⊥ }
    ensures untold { IsFormed (record (receiving_end 16 33 5) { partner = Some 7 }) → ⊥ }
{}

/// What commands are on a link.
pub fn worked_commands()
    ensures { WorkedCommands }
{}

/// What else the calls are on a link.
#[tactic(auto, using(crate::proofs::GoesOut::unsaid))]
pub fn worked_moves()
    ensures { WorkedMoves }
{}
