//! What all that a host's program does with one peer in a stay is on each link: a run of the law's receiver, and one of its sender. The functions here do
//! nothing: each clause is a law.

ghost use Rattle.std.specs.Prelude.{◌≡◌, true, false, [], ◌∷◌, Some, None};
ghost use Rattle.interface.specs.Host.{Host};
ghost use Rattle.ncp_control.specs.declared.command.Command.TheVariants as command;
ghost use Rattle.stream_law.specs.Senders as senders;
ghost use Rattle.host_pairs.specs.Entries.{sending_end};
ghost use Rattle.host_keeps_streams.specs.Histories.{Closes, HasClosed, IsHistory, IsTelling, KeepBox, AreAllowed, MayReceiveAll, MaySendAll, OpensReceiver, OpensSender, Says};
ghost use Rattle.host_keeps_streams.specs.Histories.{closing_moments, ended_moments, gone_now, moment, name_now, numbered_by_gone, numbered_by_own, opening_moments, receiver_now};
ghost use Rattle.host_keeps_streams.specs.Histories.{sender_now, waiting};
ghost use Rattle.host_keeps_streams.specs.Laws.Histories.{Histories};

/// Whatever happens to the ends of a host with one peer while the two stay together, call after call, from where there were none. What is
/// assumed of the calls is in `AreAllowed`.
pub fn histories()
    ensures { Histories }
{}

/// An end that opens, closes both ways, and is asked for again.
pub fn worked_histories()
    // each call finds what the one before left
    ensures chain { (peer : Host) → IsHistory peer closing_moments }
    ensures broken { (peer : Host) → IsHistory peer (moment (OpensReceiver 18 35) [] ∷ opening_moments) → ⊥ }
    ensures begun { (peer : Host) → IsHistory peer (moment (OpensReceiver 18 35) (waiting ∷ []) ∷ []) → ⊥ }

    // and is allowed
    ensures allowed { (peer : Host) → AreAllowed numbered_by_gone peer 2 closing_moments }

    // it opens on link 2, and on no other
    ensures opened { (peer : Host) → ((receiver_now numbered_by_own peer 2 opening_moments).end ≡ Some 16) × ((receiver_now numbered_by_own peer 2 opening_moments).opened ≡ true) }
    ensures elsewhere { (peer : Host) → ((receiver_now numbered_by_own peer 3 opening_moments).end ≡ None) × ((receiver_now numbered_by_own peer 3 opening_moments).size 16 ≡ Some 8) }

    // a connection that is gone counts, and the next one of the same sockets has another number
    ensures gone { (peer : Host) → (gone_now peer opening_moments 16 33 ≡ 0) × (gone_now peer closing_moments 16 33 ≡ 1) × (gone_now peer closing_moments 18 33 ≡ 0) }
    ensures next { (peer : Host) → (receiver_now numbered_by_gone peer 2 closing_moments).end ≡ Some 1 }
    ensures free { (peer : Host) → (name_now numbered_by_gone peer opening_moments 16 33 ≡ 0) × (name_now numbered_by_gone peer closing_moments 16 33 ≡ 1) }

    // the law lets it, and wouldn't if the next had the number of the last
    ensures may { (peer : Host) → MayReceiveAll numbered_by_gone peer 2 closing_moments }
    ensures again { (peer : Host) → MayReceiveAll numbered_by_own peer 2 closing_moments → ⊥ }

    // a user closed it, so its CLS is first; where its partner's is taken first, nobody closed it here
    ensures quit { (peer : Host) → ((receiver_now numbered_by_gone peer 2 closing_moments).first 0 ≡ true) × HasClosed numbered_by_gone peer 2 0 closing_moments }
    ensures ended { (peer : Host) → ((receiver_now numbered_by_gone peer 2 ended_moments).closed ≡ true) × ((receiver_now numbered_by_gone peer 2 ended_moments).first 0 ≡ false) }
    ensures unclosed { (peer : Host) → HasClosed numbered_by_gone peer 2 0 ended_moments → ⊥ }
    ensures another { (peer : Host) → HasClosed numbered_by_gone peer 2 1 closing_moments → ⊥ }
    ensures link { (peer : Host) → HasClosed numbered_by_gone peer 3 0 closing_moments → ⊥ }

    // such numbers distinguish one connection from another
    ensures alike { IsTelling numbered_by_own → ⊥ }

    // a user who asks for an end that is there would be refused; so would a CLS that goes out before it is said
    ensures taken { (peer : Host) → AreAllowed numbered_by_own peer 2 (moment (OpensReceiver 16 33) (waiting ∷ []) ∷ moment (OpensReceiver 16 33) [] ∷ []) → ⊥ }
    ensures unsaid { (peer : Host) → AreAllowed numbered_by_own peer 2 (moment (Says 6 (command.Cls 16 33)) (waiting ∷ []) ∷ moment (OpensReceiver 16 33) [] ∷ []) → ⊥ }

    // a sending end says its byte size on each link, and closes at once where nothing was sent
    ensures sends { (peer : Host) → MaySendAll numbered_by_own peer 5 (moment (Closes 33 (sending_end 33 16 8)) (sending_end 33 16 8 ∷ []) ∷ moment (OpensSender 33 16 8) [] ∷ []) }
    ensures closed { (peer : Host) → (sender_now numbered_by_own peer 5 (moment (Closes 33 (sending_end 33 16 8)) (sending_end 33 16 8 ∷ []) ∷ moment (OpensSender 33 16 8) [] ∷ [])).closed 33 ≡ true }
    // a message goes out where none is outstanding, and an end that has opened closes where none is; one that hasn't opened may close at any time
    ensures sends_free { (KeepBox false (senders.Send 33 8 [] ∷ []) senders.opening_sender) × (KeepBox true (senders.Send 33 8 [] ∷ []) senders.opening_sender → ⊥) }
    ensures closes_free { KeepBox true (senders.Close 33 ∷ []) (record senders.opening_sender { end = Some 33; opened = true }) → ⊥ }
    ensures closes_other { KeepBox true (senders.Close 35 ∷ []) (record senders.opening_sender { end = Some 33; opened = true }) }
    ensures closes_unopened { KeepBox true (senders.Close 33 ∷ []) senders.opening_sender }
    ensures told { (peer : Host) → (sender_now numbered_by_own peer 5 (moment (OpensSender 33 16 8) [] ∷ [])).size 33 ≡ Some 8 }
{}
