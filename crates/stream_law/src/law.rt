//! What becomes of a stream. The functions here do nothing: each clause is the law.

ghost use Rattle.std.specs.Prelude.{◌≡◌, true, [], ◌∷◌, ◌++◌, Some, None};
ghost use Rattle.stream_law.specs.Words.{Rts, Str, All, Gvb, Ret, Cls};
ghost use Rattle.stream_law.specs.Receivers as receivers;
ghost use Rattle.stream_law.specs.Senders as senders;
ghost use Rattle.stream_law.specs.Streams.{Receives, Sends, stream, IsRun};
ghost use Rattle.stream_law.specs.Within.{IsPrefix, message_bits, AreGranted, IsSafe, NoneReturned, NothingLeft};
ghost use Rattle.stream_law.specs.Agreed.{ArePrompt, IsAtRest, AreAgreed};
ghost use Rattle.stream_law.specs.Example.{two, three, opened_events, granted_events, sent_events, taken_events, returned_events, closed_events, ended_events, quit_events, rested_events, late_events};
ghost use Rattle.stream_law.specs.Example.{next, hasty, early};
ghost use Rattle.stream_law.specs.Laws.{Owners, Streams, WorkedStream};

/// Whatever the two hosts of a link do while they stay together, connection after connection. What is assumed of them is in
/// `IsRun`: their own rules, and that what one said is heard in order.
pub fn streams()
    ensures { Streams }
{}

/// Data, ALL, GVB and RET name the link only. Whoever takes one has on that link the end of the connection in which it was said.
pub fn owners()
    ensures { Owners }
{}

/// A stream from its request to its end, and the next one on its link.
pub fn worked_stream()
    ensures { WorkedStream }
{}

/// Lists of events that may be, so the laws don't speak of nothing; and two that may not, which would break them.
pub fn worked_runs()
    ensures next { IsRun next }
    ensures quit { IsRun quit_events }
    ensures late { IsRun late_events }

    // a sender that closes while its message has no answer: the next connection takes it
    ensures hasty { IsRun hasty → ⊥ }
    ensures hasty_breaks { IsSafe (stream hasty) 2 → ⊥ }

    // a receiver whose link is free too early: what it grants in one connection is spent in another
    ensures early { IsRun early → ⊥ }
    ensures early_breaks { IsSafe (stream early) 1 → ⊥ }
{}

/// What a host may not do.
pub fn worked_rules()
    // it sends at an open end, in bytes of the size that it announced, what it was granted, and one message at a time
    ensures past { IsRun (Sends (senders.Send 1 1 (two ++ three ++ three ++ three)) ∷ granted_events) → ⊥ }
    ensures ungranted { IsRun (Sends (senders.Send 1 1 []) ∷ opened_events) → ⊥ }
    ensures size { IsRun (Sends (senders.Send 1 8 two) ∷ granted_events) → ⊥ }
    ensures outstanding { IsRun (Sends (senders.Send 1 1 two) ∷ taken_events) → ⊥ }
    ensures behind { IsRun (Sends (senders.Send 1 1 two) ∷ Sends (senders.Close 1) ∷ granted_events) → ⊥ }

    // it closes where all that it sent is answered, and once
    ensures unanswered { IsRun (Sends (senders.Close 1) ∷ taken_events) → ⊥ }
    ensures twice { IsRun (Sends (senders.Close 1) ∷ Sends (senders.Close 1) ∷ granted_events) → ⊥ }

    // a receiver asks on a free link, for each connection once, and its link is free when a CLS has passed both ways
    ensures used { IsRun (Receives (receivers.Ask 2) ∷ opened_events) → ⊥ }
    ensures again { IsRun (Receives (receivers.Ask 1) ∷ closed_events) → ⊥ }
    ensures unheard { IsRun (Receives (receivers.Free 1) ∷ Receives (receivers.Close 1) ∷ granted_events) → ⊥ }

    ensures unclosed { IsRun (Receives (receivers.Free 1) ∷ Receives (receivers.Hear (Cls 1)) ∷ Sends (senders.Close 1) ∷ granted_events) → ⊥ }

    // it grants at an open end, no more than its counters hold
    ensures unopened { IsRun (Receives (receivers.Grant 1 1 1) ∷ Receives (receivers.Ask 1) ∷ []) → ⊥ }
    ensures too_many { IsRun (Receives (receivers.Grant 1 65534 0) ∷ granted_events) → ⊥ }
    ensures too_much { IsRun (Receives (receivers.Grant 1 0 4294967286) ∷ granted_events) → ⊥ }

    // nothing is heard that wasn't said, or out of its order; nothing is taken that doesn't wait
    ensures unsaid { IsRun (Sends (senders.Hear (All 1 1 1)) ∷ granted_events) → ⊥ }
    ensures order { IsRun (Sends (senders.Hear (Cls 1)) ∷ closed_events) → ⊥ }
    ensures nothing { IsRun (Receives (receivers.Take 1 two) ∷ granted_events) → ⊥ }
{}

/// What is dropped.
pub fn worked_dropping()
    // data for an end that closes, in bytes of another size, or past what was granted
    ensures closing { (stream (Receives (receivers.Take 1 two) ∷ Receives (receivers.Close 1) ∷ sent_events)).receiver.taken 1 ≡ [] }
    ensures over { (receivers.takes 1 two (Some 1) (record (stream sent_events).receiver { over = λ c. true })).taken 1 ≡ [] }
    ensures size { (receivers.takes 8 two (Some 1) (stream sent_events).receiver).taken 1 ≡ [] }
    ensures bits { (receivers.takes 1 two (Some 1) (record (stream sent_events).receiver { allocation = record { messages = 1; bits = 1 } })).taken 1 ≡ [] }
    ensures messages { (receivers.takes 1 two (Some 1) (record (stream sent_events).receiver { allocation = record { messages = 0; bits = 2 } })).taken 1 ≡ [] }
    ensures just { (receivers.takes 1 two (Some 1) (record (stream sent_events).receiver { allocation = record { messages = 1; bits = 2 } })).taken 1 ≡ two ∷ [] }

    // more returned than is left, or to an end that closes
    ensures returned { receivers.takes_back 3 0 (Some 1) (stream sent_events).receiver ≡ (stream sent_events).receiver }
    ensures returned_bits { receivers.takes_back 0 11 (Some 1) (stream sent_events).receiver ≡ (stream sent_events).receiver }
    ensures late { receivers.takes_back 1 1 (Some 1) (record (stream sent_events).receiver { closed = true }) ≡ record (stream sent_events).receiver { closed = true } }

    // a grant, and what is asked back, at an end that closes; a request on a link that an end has
    ensures granted { (senders.hears (All 1 1 1) (record (stream sent_events).sender { shut = true })).allocation ≡ (stream sent_events).sender.allocation }
    ensures asked_back { senders.says (senders.Hear (Gvb 1 64 64)) (record (stream sent_events).sender { shut = true }) ≡ None }
    ensures asked { senders.hears (Rts 2) (stream sent_events).sender ≡ (stream sent_events).sender }

    // the CLS of a connection that isn't on the link
    ensures other { senders.hears (Cls 2) (stream sent_events).sender ≡ (stream sent_events).sender }
{}

/// What is said of streams (`Within`).
pub fn worked_within()
    // prefixes are of whole messages, from the first on
    ensures front { IsPrefix (two ∷ []) (two ∷ three ∷ []) }
    ensures behind { IsPrefix (three ∷ []) (two ∷ three ∷ []) → ⊥ }
    ensures longer { IsPrefix (two ∷ three ∷ []) (two ∷ []) → ⊥ }
    ensures bits { message_bits (two ∷ three ∷ []) ≡ 5 }

    // what was returned counts with the messages and with the bits
    ensures granted { AreGranted (two ∷ three ∷ []) (record { messages = 1; bits = 2 }) (record { messages = 3; bits = 7 }) }
    ensures many { AreGranted (two ∷ three ∷ []) (record { messages = 1; bits = 2 }) (record { messages = 2; bits = 7 }) → ⊥ }
    ensures much { AreGranted (two ∷ three ∷ []) (record { messages = 1; bits = 2 }) (record { messages = 3; bits = 6 }) → ⊥ }

    // a return after other words is in transit
    ensures returned { NoneReturned (Str 2 1 ∷ Cls 1 ∷ Ret 1 0 4 ∷ []) → ⊥ }

    // data that wait are left over, and so is an end of the sender that isn't closed
    ensures waiting { NothingLeft (stream sent_events) → ⊥ }
    ensures unclosed { NothingLeft (stream granted_events) → ⊥ }
    ensures left { NothingLeft (stream closed_events) }

    // two open ends between which nothing is in transit agree: they may carry two more messages and seven bits
    ensures rested { IsAtRest (stream rested_events) 1 }
    ensures agreed { AreAgreed (stream rested_events) 1 }
    ensures agreed_taken { AreAgreed (stream taken_events) 1 }

    // where data wait or a grant is in transit they aren't at rest, and don't agree; nor are they where an end closes
    ensures waits { (IsAtRest (stream sent_events) 1 → ⊥) × (AreAgreed (stream sent_events) 1 → ⊥) }
    ensures transit { (IsAtRest (stream returned_events) 1 → ⊥) × (AreAgreed (stream returned_events) 1 → ⊥) }
    ensures closing { IsAtRest (stream ended_events) 1 → ⊥ }

    // a grant that is heard too early is lost, and then two open ends at rest don't agree
    ensures prompt { ArePrompt rested_events }
    ensures late_prompt { ArePrompt late_events → ⊥ }
    ensures late_rests { IsAtRest (stream late_events) 1 }
    ensures late_disagrees { AreAgreed (stream late_events) 1 → ⊥ }
{}
