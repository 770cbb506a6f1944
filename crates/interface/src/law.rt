//! What mailboxes promise, as laws over their definitions. The functions here do nothing: each clause is the law.

ghost use Rattle.std.specs.Prelude.{◌≡◌, ◌≢◌, ℕ, false, List, [], ◌∷◌, Some, slice_get};
ghost use Rattle.interface.specs.Host.{Host, is_host, InOrder};
ghost use Rattle.interface.specs.Mailboxes.{IsRun, Empty, Waiting, Taken, box_of};
ghost use Rattle.interface.specs.Messages.{SafeMessages, NeverTaken};
ghost use Rattle.interface.specs.declared.crossing.Answer.{Answer};
ghost use Rattle.interface.specs.declared.crossing.Answer.TheVariants as answer;
ghost use Rattle.interface.specs.declared.crossing.Crossing.{Crossing};
ghost use Rattle.interface.specs.declared.crossing.Crossing.TheVariants as crossing;
ghost use Rattle.interface.specs.declared.message.HostMessage.{HostMessage};
ghost use Rattle.interface.specs.Laws.{Mailboxes, WorkedRuns};

/// Hosts in order, as a carrier names them.
pub fn hosts()
    // a host is at one place only
    ensures once { (hosts : List Host) (i j : ℕ) (h : Host) → InOrder hosts → slice_get hosts i ≡ Some h → slice_get hosts j ≡ Some h → i ≡ j }
{}

/// A network may be looked at one flow at a time (BBN Report 1822: one message outstanding on a link).
pub fn mailboxes()
    ensures { Mailboxes }
{}

/// Logs that are no run, and boxes after a few crossings: the rules of the mailboxes one by one.
pub fn worked_boxes()
    // a message waits in the box once it is out, with its place and its text, and no longer once it is taken
    ensures waits { (m : HostMessage) → box_of m.flow (crossing.Out m ∷ []) ≡ Waiting 0 m.text }
    ensures taken { (m : HostMessage) → box_of m.flow (crossing.In m ∷ crossing.Out m ∷ []) ≡ Taken 0 m.text }

    // its place is the number of crossings before it
    ensures place { (m : HostMessage) (h : Host) → box_of m.flow (crossing.Out m ∷ crossing.Down h ∷ []) ≡ Waiting 1 m.text }

    // a host that goes down changes no box
    ensures left { (m : HostMessage) (h : Host) → box_of m.flow (crossing.Down h ∷ crossing.Out m ∷ []) ≡ Waiting 0 m.text }

    // a host that comes up finds the boxes of its flows empty
    ensures emptied { (m : HostMessage) → box_of m.flow (crossing.Up m.flow.source ∷ crossing.Out m ∷ []) ≡ Empty }

    // no message goes out while the flow's last one is outstanding, and none is taken twice
    ensures one_outstanding { (hosts : List Host) (m : HostMessage) → IsRun hosts (crossing.Out m ∷ crossing.Out m ∷ []) → ⊥ }
    ensures taken_once { (hosts : List Host) (m : HostMessage) → IsRun hosts (crossing.In m ∷ crossing.In m ∷ crossing.Out m ∷ []) → ⊥ }

    // RFNM needs a message that was taken, Dead and NotTaken one that waits, and Incomplete one of either
    ensures early_rfnm { (hosts : List Host) (m : HostMessage) → IsRun hosts (crossing.Answer answer.Rfnm m.flow ∷ crossing.Out m ∷ []) → ⊥ }
    ensures late_dead { (hosts : List Host) (m : HostMessage) → IsRun hosts (crossing.Answer answer.Dead m.flow ∷ crossing.In m ∷ crossing.Out m ∷ []) → ⊥ }
    ensures late_not_taken { (hosts : List Host) (m : HostMessage) → IsRun hosts (crossing.Answer answer.NotTaken m.flow ∷ crossing.In m ∷ crossing.Out m ∷ []) → ⊥ }
    ensures answered_once { (hosts : List Host) (m : HostMessage) (kind : Answer) → IsRun hosts (crossing.Answer kind m.flow ∷ crossing.Answer answer.Incomplete m.flow ∷ crossing.Out m ∷ []) → ⊥ }

    // a host that is up does not come up, and one that is down does not go down
    ensures up_twice { (hosts : List Host) (h : Host) → IsRun hosts (crossing.Up h ∷ []) → ⊥ }
    ensures down_twice { (hosts : List Host) (h : Host) → IsRun hosts (crossing.Down h ∷ crossing.Down h ∷ []) → ⊥ }

    // a host that isn't in the network hands over no message
    ensures stranger { (hosts : List Host) (m : HostMessage) → is_host hosts m.flow.source ≡ false → IsRun hosts (crossing.Out m ∷ []) → ⊥ }
{}

/// Logs that are runs: what the rules of the mailboxes allow.
pub fn worked_runs()
    ensures { WorkedRuns }
{}

/// Logs whose messages aren't safe, one for each part of what that is.
pub fn unsafe_logs()
    // an RFNM though nothing was taken
    ensures untaken { (m : HostMessage) → SafeMessages (crossing.Answer answer.Rfnm m.flow ∷ crossing.Out m ∷ []) → ⊥ }

    // a message taken twice
    ensures twice { (m : HostMessage) → SafeMessages (crossing.In m ∷ crossing.In m ∷ crossing.Out m ∷ []) → ⊥ }

    // a text taken that isn't the message's
    ensures other_text { (m n : HostMessage) → n.flow ≡ m.flow → n.text ≢ m.text → SafeMessages (crossing.In n ∷ crossing.Out m ∷ []) → ⊥ }

    // a message taken before any went out
    ensures early { (m : HostMessage) → SafeMessages (crossing.In m ∷ []) → ⊥ }

    // a message taken before its source gets NotTaken, and one taken after that
    ensures taken_and_told { (m : HostMessage) → NeverTaken (crossing.Answer answer.NotTaken m.flow ∷ crossing.In m ∷ crossing.Out m ∷ []) → ⊥ }
    ensures told_and_taken { (m : HostMessage) → NeverTaken (crossing.In m ∷ crossing.Answer answer.NotTaken m.flow ∷ crossing.Out m ∷ []) → ⊥ }

    // the same with a later message of the flow on top
    ensures taken_below { (m : HostMessage) → NeverTaken (crossing.Out m ∷ crossing.Answer answer.NotTaken m.flow ∷ crossing.In m ∷ crossing.Out m ∷ []) → ⊥ }

    // a message taken before its source gets Dead, and one taken after that
    ensures taken_and_dead { (m : HostMessage) → NeverTaken (crossing.Answer answer.Dead m.flow ∷ crossing.In m ∷ crossing.Out m ∷ []) → ⊥ }
    ensures dead_and_taken { (m : HostMessage) → NeverTaken (crossing.In m ∷ crossing.Answer answer.Dead m.flow ∷ crossing.Out m ∷ []) → ⊥ }
{}

/// What every host may rely on, from the mailboxes only.
pub fn messages()
    ensures { (hosts : List Host) (log : List Crossing) → IsRun hosts log → SafeMessages log }
{}

/// What a source that gets Dead or NotTaken may rely on, from the mailboxes only: its message was not taken,
/// and never will be.
pub fn messages_not_taken()
    ensures { (hosts : List Host) (log : List Crossing) → IsRun hosts log → NeverTaken log }
{}
