//! What a host's program does at its ends on a link. The functions here do nothing: each clause is a law. In all of them `name` identifies the
//! connection of two sockets by a number, and may be any function.

ghost use Rattle.std.specs.Prelude.{◌≡◌, true, false, [], ◌∷◌, Some, None};
ghost use Rattle.stream_law.specs.Receivers as receivers;
ghost use Rattle.stream_law.specs.Receivers.{Receiver};
ghost use Rattle.stream_law.specs.Senders as senders;
ghost use Rattle.stream_law.specs.Senders.{Sender};
ghost use Rattle.host_pairs.specs.Commands.{asked_on_link, asked_with_size};
ghost use Rattle.host_pairs.specs.Entries.{receiving_end, sending_end, refused_end};
ghost use Rattle.host_pairs.specs.Parcels.{asked_at};
ghost use Rattle.host_pairs.specs.declared.entry.Closing.TheVariants as closing;
ghost use Rattle.host_keeps_streams.specs.Ends.{has_opened, HasReceiver, HasSender};
ghost use Rattle.host_keeps_streams.specs.Laws.Ends.{Asking, Opening, ReceiverCloses, Receiving, SenderCloses, Sending};
ghost use Rattle.host_keeps_streams.specs.Laws.Worked.{WorkedClosings, WorkedSaid};

/// What comes in for the end that receives on a link.
pub fn receiving()
    ensures { Receiving }
{}

/// What comes in for the end that sends on a link, and what goes out of it.
pub fn sending()
    ensures { Sending }
{}

/// What a user asks of an open end: to grant, to ask back, or to send.
pub fn asking()
    ensures { Asking }
{}

/// Ends as the law has them. Here the name of a connection is its own socket.
pub fn worked_ends()
    // an end that receives on the link is the law's, and one that is asked for and doesn't exist isn't
    ensures own { HasReceiver (λ own foreign. own) 5 (receiving_end 16 33 5 ∷ []) (receivers.asks 16 receivers.opening_receiver) }
    ensures missing { HasReceiver (λ own foreign. own) 5 (receiving_end 16 33 5 ∷ []) receivers.opening_receiver → ⊥ }
    ensures unknown { HasReceiver (λ own foreign. own) 5 [] (receivers.asks 16 receivers.opening_receiver) → ⊥ }
    ensures name { HasReceiver (λ own foreign. foreign) 5 (receiving_end 16 33 5 ∷ []) (receivers.asks 16 receivers.opening_receiver) → ⊥ }

    // one on another link isn't on this, nor is one that sends
    ensures none { HasReceiver (λ own foreign. own) 5 [] receivers.opening_receiver }
    ensures other { HasReceiver (λ own foreign. own) 5 (receiving_end 16 33 7 ∷ []) receivers.opening_receiver }
    ensures sends { HasReceiver (λ own foreign. own) 5 (asked_on_link 7 5 (sending_end 33 16 8) ∷ []) receivers.opening_receiver }

    // two on one link are nobody's
    ensures twins { (r : Receiver) → HasReceiver (λ own foreign. own) 5 (receiving_end 16 33 5 ∷ receiving_end 18 35 5 ∷ []) r → ⊥ }
    ensures two { (s : Sender) → HasSender (λ own foreign. own) 5 (asked_on_link 7 5 (sending_end 33 16 8) ∷ asked_on_link 7 5 (sending_end 35 18 8) ∷ []) s → ⊥ }

    // it opens by both requests; a CLS that waits to go out is said, and one that is due isn't
    ensures half { has_opened (asked_at 6 (receiving_end 16 33 5)) ≡ false }
    ensures opened { has_opened (asked_with_size 9 8 (asked_at 6 (receiving_end 16 33 5))) ≡ true }
    ensures queued { HasReceiver (λ own foreign. own) 5 (record (receiving_end 16 33 5) { closing = closing.Queued } ∷ []) (record (receivers.asks 16 receivers.opening_receiver) { closed = true }) }
    ensures due { HasReceiver (λ own foreign. own) 5 (record (receiving_end 16 33 5) { closing = closing.Due } ∷ []) (record (receivers.asks 16 receivers.opening_receiver) { closed = true }) → ⊥ }

    // a sending end has the link when its RTS was taken
    ensures asked { HasSender (λ own foreign. own) 5 (asked_on_link 7 5 (sending_end 33 16 8) ∷ []) (senders.begins 33 None (senders.moved (senders.Ask 33 8) senders.opening_sender)) }
    ensures unasked { HasSender (λ own foreign. own) 5 (sending_end 33 16 8 ∷ []) (senders.moved (senders.Ask 33 8) senders.opening_sender) }

    // where there is none on the link the law's may be there and closed, but not open
    ensures refused { HasSender (λ own foreign. own) 5 (refused_end 33 16 9 ∷ []) (record senders.opening_sender { end = Some 33; opened = true; closed = λ c. true }) }
    ensures stray { HasSender (λ own foreign. own) 5 [] (record senders.opening_sender { end = Some 33; opened = true }) → ⊥ }
{}

/// Notices and what is said.
pub fn worked_said()
    ensures { WorkedSaid }
{}

/// How the end that receives on a link closes.
pub fn receiver_closes()
    ensures { ReceiverCloses }
{}

/// How the end that sends on a link closes.
pub fn sender_closes()
    ensures { SenderCloses }
{}

/// What ends do of themselves where they close.
pub fn worked_closings()
    ensures { WorkedClosings }
{}

/// How ends on a link open that the host itself asked for. Those with which a listening socket answers are not described here.
pub fn opening()
    ensures { Opening }
{}
