//! Networks with strangers. The functions here do nothing: each clause is a law.

ghost use Rattle.std.specs.Prelude.{◌≡◌, true, false, [], ◌∷◌, Some, length, replicate};
ghost use Rattle.host_pairs.specs.declared.notice.Notice.TheVariants as notice;
ghost use Rattle.promise.specs.Ends.{AreContacts, Dropped, Over, crosses};
ghost use Rattle.promise.specs.Safe.{IsGranted};
ghost use Rattle.sockets.specs.Sending.{next_out};
ghost use Rattle.sockets.specs.Worked.{ALL, STR, control, first, message, on_link, second, third};
ghost use Rattle.interface.specs.declared.crossing.Answer.TheVariants as answer;
ghost use Rattle.interface.specs.declared.crossing.Crossing.TheVariants as crossing;
ghost use Rattle.net_sim.specs.Book.{carried, new_life};
ghost use Rattle.net_sim.specs.Story.{Crossed, program};
ghost use Rattle.net_sim.specs.Timeline.{crossings_of};
ghost use Rattle.net_sim.specs.Told.{kept_in};
ghost use Rattle.net_sim.specs.Worked.{eight};
ghost use Rattle.net_sim.specs.WorkedResets.{rrp, rst};
ghost use Rattle.mixed_worlds.specs.Mixed.{AreMixed};
ghost use Rattle.mixed_worlds.specs.Worked.{is_third, listener_taken, three};
ghost use Rattle.promise.specs.Formed.{IsFormed};
ghost use Rattle.mixed_worlds.specs.Arrived.{ArrivedAmong, BetweenAmong};
ghost use Rattle.mixed_worlds.specs.Book.{beside_among, contacts_among, lives_among, mixed_kept};
ghost use Rattle.mixed_worlds.specs.Toward.{AreOf, AreOnce, HasAsked, IsCarried, IsNamed, IsWithin, NamesItself};
ghost use Rattle.mixed_worlds.specs.Toward.{ReportsData, granted_to};
ghost use Rattle.mixed_worlds.specs.Told.{ToldAmong, told_among};
ghost use Rattle.mixed_worlds.specs.Worked.{both_in, contacts, eight_bits, eight_taken, eight_told, granting_life};
ghost use Rattle.mixed_worlds.specs.Worked.{amount, asking_life, granted_beside, one_as_data, one_more};
ghost use Rattle.mixed_worlds.specs.Worked.{control_bits, odd_life, odd_size, sending_life, sent_ungranted};
ghost use Rattle.mixed_worlds.specs.Worked.{all_called, begun, called_second, called_stranger};
ghost use Rattle.mixed_worlds.specs.Worked.{plain_bits, plain_life, receiving_life};
ghost use Rattle.mixed_worlds.specs.Worked.{stranger_contacted, stranger_granted, stranger_opened};
ghost use Rattle.mixed_worlds.specs.Laws.{Among, AsArrived, HaveSettled, Toward, Worlds};

use interface::Carrier;
use net_sim::law::orders;
use world_keeps_streams::law as streams;

/// Hosts with programs among each other, whatever strangers send and take.
pub fn among()
    ensures { Among }
{
    streams::among();
    orders();
}

/// A host with a program, toward strangers and all others.
pub fn toward()
    ensures { Toward }
{
    orders();
}

/// A world with strangers, after any calls of `MixedWorld`: what its real book promises, over all that crossed.
pub fn worlds<C: Carrier>()
    ensures { Worlds C.calls }
{
    among();
    toward();
}

/// What is kept of a network with a stranger, and what of it is among hosts with programs.
pub fn worked_books()
    // a stranger took a listening socket: the host has a life with it, which isn't among hosts with programs
    ensures mixed { AreMixed is_third three stranger_opened }
    ensures opened { (mixed_kept is_third stranger_opened).book.lives ≡ new_life second 33 third 16 8 7 ∷ [] }
    ensures toward { lives_among is_third (mixed_kept is_third stranger_opened).book.lives ≡ [] }

    // nobody at a stranger is notified, as the user of a host with a program would be
    ensures untold { (mixed_kept is_third stranger_contacted).book.notices ≡ [] }
    ensures told { length (kept_in stranger_contacted).book.notices ≡ 1 }

    // of several lives those between other hosts, and what another list has beside them
    ensures among { lives_among is_third (odd_life ∷ plain_life ∷ []) ≡ plain_life ∷ [] }
    ensures beside { beside_among is_third (odd_life ∷ plain_life ∷ []) (true ∷ false ∷ []) ≡ false ∷ [] }
    ensures owner { lives_among is_third (new_life third 33 second 16 7 8 ∷ []) ≡ [] }
{}

/// What isn't promised toward a stranger: a message of another byte size is answered by ERR and not taken, so what was
/// taken is no longer the first on its link. It is still within what was granted.
pub fn worked_toward()
    ensures mixed { AreMixed is_third three odd_size }
    ensures granting { (mixed_kept is_third stranger_granted).book.lives ≡ granting_life ∷ [] }
    ensures life { (mixed_kept is_third odd_size).book.lives ≡ odd_life ∷ [] }
    ensures unfirst { IsFormed (crossings_of odd_size) odd_life → ⊥ }
    ensures granted { IsGranted odd_life 1 (length odd_life.bits) }

    // its requests crossed at its stamps, and at no other two
    ensures asked { HasAsked (crossings_of odd_size) odd_life }
    ensures turned { HasAsked (crossings_of odd_size) (new_life second 16 third 33 7 8) → ⊥ }

    // its bits are those of one message on link 2, which its own RTS names, and no other link. What comes in there
    // before its requests isn't counted, nor may a message be counted that didn't come
    ensures carried { IsCarried (crossings_of odd_size) odd_life }
    ensures itself { NamesItself (crossings_of odd_size) odd_life 2 }
    ensures another { NamesItself (crossings_of odd_size) odd_life 3 → ⊥ }
    ensures early { AreOf true (on_link third second 2) 8 7 (crossing.In eight_bits ∷ []) 1 eight → ⊥ }
    ensures uncounted { AreOf true (on_link third second 2) 0 0 [] 1 eight → ⊥ }

    // where the second message is taken its eight bits may be reported as arrived, not the seven of the first one, and
    // nothing as sent
    ensures arrived { ReportsData eight_taken (notice.Arrived 16 eight) }
    ensures others { ReportsData eight_taken (notice.Arrived 16 (replicate 7 true)) → ⊥ }
    ensures unsent { ReportsData eight_taken (notice.Sent 16 eight) → ⊥ }
{}

/// The link of a life that sends to a stranger is one that the stranger's RTS names, in the message at its partner
/// stamp.
pub fn worked_links()
    ensures carried { IsCarried (crossings_of stranger_opened) sending_life }
    ensures named { IsNamed (crossings_of stranger_opened) sending_life 2 }

    // no other link, and nothing that goes out names one
    ensures other { IsNamed (crossings_of stranger_opened) sending_life 3 → ⊥ }
    ensures turned { IsNamed (crossings_of stranger_opened) (new_life second 33 third 16 7 8) 2 → ⊥ }
{}

/// What isn't kept toward a stranger: each part of the two definitions refuses a life that has all others.
pub fn worked_refusals()
    // only one of both requests crossed at its stamp
    ensures own { HasAsked (crossings_of odd_size) (new_life second 16 third 33 9 7) → ⊥ }
    ensures partner { HasAsked (crossings_of odd_size) (new_life second 16 third 33 8 6) → ⊥ }

    // data that crossed after only one of them
    ensures before_own { AreOf true (on_link first second 2) 1 0 both_in 1 eight → ⊥ }
    ensures before_partner { AreOf true (on_link first second 2) 0 1 both_in 1 eight → ⊥ }

    // a message that didn't cross, though so much was granted; one that did, though nothing was; and a sender whose
    // peer named no link in the message at its partner stamp
    ensures messages { IsCarried granted_beside (carried eight asking_life) → ⊥ }
    ensures within { IsCarried sent_ungranted (carried eight sending_life) → ⊥ }
    ensures named { IsCarried (crossings_of stranger_opened) (new_life second 33 third 16 8 8) → ⊥ }

    // a receiver that named none itself at its own stamp
    ensures itself { IsCarried (crossings_of odd_size) (record odd_life { own_stamp = 9 }) → ⊥ }

    // a message on link 0 brings no data, whatever it has
    ensures control { ReportsData (Crossed (crossing.In control_bits)) (notice.Arrived 16 eight) → ⊥ }
{}

/// What a life that sends may send: as much as its peer's ALLs name on its link, from the partner's request on.
pub fn worked_within()
    // an ALL beside the partner's request counts, and all together
    ensures beside { granted_to asking_life 2 granted_beside ≡ amount 2 16 }
    ensures sum { granted_to asking_life 2 (crossing.In (one_more third) ∷ granted_beside) ≡ amount 3 24 }

    // none on another link, before the partner's request, or before the own one went out; none from another peer, none
    // that hasn't come in, none that its host sends, and nothing in data
    ensures other { granted_to asking_life 3 granted_beside ≡ amount 0 0 }
    ensures early { granted_to (new_life second 33 third 16 0 2) 2 granted_beside ≡ amount 0 0 }
    ensures unasked { granted_to (new_life second 33 third 16 1 1) 2 granted_beside ≡ amount 0 0 }
    ensures peer { granted_to asking_life 2 (crossing.In (one_more first) ∷ granted_beside) ≡ amount 2 16 }
    ensures going { granted_to asking_life 2 (crossing.Out (one_more third) ∷ granted_beside) ≡ amount 2 16 }
    ensures sent { granted_to asking_life 2 (crossing.Out (control second third (ALL 2 1 8)) ∷ granted_beside) ≡ amount 2 16 }
    ensures data { granted_to asking_life 2 (crossing.In one_as_data ∷ granted_beside) ≡ amount 2 16 }

    // so two messages of 16 bits are within it, and not one message or one bit more
    ensures within { IsWithin granted_beside (record asking_life { messages = 2; bits = replicate 16 true }) 2 }
    ensures messages { IsWithin granted_beside (record asking_life { messages = 3 }) 2 → ⊥ }
    ensures bits { IsWithin granted_beside (record asking_life { bits = replicate 17 true }) 2 → ⊥ }
{}

/// No two lives have the same own request, in the message at their own stamp for their two sockets, nor the same one of
/// their partner. One message may hold requests of several.
pub fn worked_once()
    ensures together { AreOnce (sending_life ∷ receiving_life ∷ []) }
    ensures own { AreOnce (sending_life ∷ new_life second 33 third 16 8 9 ∷ []) → ⊥ }
    ensures partner { AreOnce (sending_life ∷ new_life second 33 third 16 9 7 ∷ []) → ⊥ }
{}

/// Where hosts with programs have nothing left to do: a stranger has taken a listening socket of the second host, which
/// still has its STR to say to the stranger, and to no other.
pub fn worked_settled()
    ensures waits { next_out (program second listener_taken) ≡ Some (control second third (STR 33 16 8)) }
    ensures settled { HaveSettled is_third three listener_taken }

    // not while the first host has an RST to say to the second, nor until that is answered
    ensures unsaid { HaveSettled is_third three contacts → ⊥ }
    ensures unanswered { HaveSettled is_third three (Crossed (crossing.Out (rst first second)) ∷ contacts) → ⊥ }
{}

/// Which notices of data are about messages among hosts with programs, and which of these have to be reported.
pub fn worked_told()
    // what came in from a stranger is left out, wherever that is in the log, and what came in from another host stays
    ensures left { told_among is_third (crossing.In eight_bits ∷ []) (eight_told 1 ∷ []) ≡ [] }
    ensures older { told_among is_third both_in (eight_told 2 ∷ eight_told 1 ∷ []) ≡ eight_told 2 ∷ [] }

    // a notice just after no crossing stays, and reports nothing
    ensures before { told_among is_third (crossing.In eight_bits ∷ []) (eight_told 0 ∷ []) ≡ eight_told 0 ∷ [] }
    ensures nothing { ToldAmong is_third [] (eight_told 1 ∷ []) → ⊥ }

    // nor is one left out at another host than the crossing's own: at a third, or at the host that a message is for before it takes it
    ensures elsewhere { ToldAmong is_third (crossing.In eight_bits ∷ []) (record (eight_told 1) { host = first } ∷ []) → ⊥ }
    ensures untaken { ToldAmong is_third (crossing.Out eight_bits ∷ []) (eight_told 1 ∷ []) → ⊥ }

    // what goes out among hosts with programs has to be reported, and what a stranger sends needn't
    ensures unreported { ToldAmong is_third (crossing.Out plain_bits ∷ []) [] → ⊥ }
    ensures free { ToldAmong is_third (crossing.Out eight_bits ∷ []) [] }
{}

/// What ends a life among hosts with programs: nothing that a stranger does.
pub fn worked_ends()
    // a stranger's RST doesn't, nor its stop, nor a message to it that fails
    ensures spared { crosses plain_life 11 (crossing.In (rst third first)) begun ≡ begun }
    ensures stopped { crosses plain_life 11 (crossing.Down third) begun ≡ begun }
    ensures failed { crosses plain_life 11 (crossing.Answer answer.Dead (on_link first third 0)) begun ≡ begun }
    ensures reset { (crosses plain_life 11 (crossing.In (rst second first)) begun).stage ≡ Over Dropped 11 }

    // of several contacts those of such a host with such a peer
    ensures among { contacts_among is_third all_called ≡ called_second }

    // what goes out next after one of these is an RST. One with a stranger asks nothing of what goes to others, and
    // toward the stranger nothing is said
    ensures followed { AreContacts (contacts_among is_third called_second) (crossing.Out (rst first second) ∷ []) }
    ensures unfollowed { AreContacts (contacts_among is_third called_second) (crossing.Out plain_bits ∷ []) → ⊥ }
    ensures free { AreContacts (contacts_among is_third called_stranger) (crossing.Out (rst second first) ∷ []) }
    ensures toward { AreContacts (contacts_among is_third called_stranger) (crossing.Out (rrp second third) ∷ []) }
{}

/// What RFNM of data says among hosts with programs.
pub fn worked_arrived()
    // where a stranger is the destination, or the source, it says nothing of lives. Between two others it needs a life
    // that sent them
    ensures destination { ArrivedAmong is_third [] (crossing.Answer answer.Rfnm (on_link second third 2) ∷ []) [] [] }
    ensures source { ArrivedAmong is_third [] (crossing.Answer answer.Rfnm (on_link third second 2) ∷ []) [] [] }
    ensures unsent { ArrivedAmong is_third [] (crossing.Answer answer.Rfnm (on_link first second 2) ∷ []) [] [] → ⊥ }

    // all else is said of any lives as where there are no strangers
    ensures as_any { AsArrived }
{}

/// Between which lives data go: between two hosts with programs, and not where a stranger is at one end.
pub fn worked_between()
    ensures source { BetweenAmong is_third (crossing.Out eight_bits ∷ []) [] }
    ensures destination { BetweenAmong is_third (crossing.Out (message second third 2 []) ∷ []) [] }
    ensures unsent { BetweenAmong is_third (crossing.Out plain_bits ∷ []) [] → ⊥ }
{}
