//! What becomes of a reset. The functions here do nothing: each clause is the law.

ghost use Rattle.std.specs.Prelude.{◌≡◌, true, [], ◌∷◌, Some};
ghost use Rattle.reset_law.specs.Boxes.{boxes, Waiting};
ghost use Rattle.reset_law.specs.Events.{Contact, Out, Down, Reset, Reply, Other};
ghost use Rattle.reset_law.specs.Example.{one, two, strange_two, reset, message, reset_beside_data, owing_reply};
ghost use Rattle.reset_law.specs.Monitor.{monitor};
ghost use Rattle.reset_law.specs.Pairs.{pair, MaySend};
ghost use Rattle.ncp_control.specs.declared.phase.Phase.TheVariants.{Ready};
ghost use Rattle.reset_law.specs.Network.{all_ours};
ghost use Rattle.reset_law.specs.Runs.{IsRun};
ghost use Rattle.reset_law.specs.Stays.{ready, stays};
ghost use Rattle.reset_law.specs.Laws.{CleanReset, Stays, WorkedResets, WorkedFailures, WorkedStays};

/// A whole reset, step by step.
pub fn worked_reset()
    // after it both hosts are through, each by a clean point of its own: the second where it took the RST, the first where it took the RRP
    ensures ready { ((pair one two reset).phase ≡ Ready) × ((pair two one reset).phase ≡ Ready) }
    ensures clean { ((monitor one two reset).clean ≡ Some 4) × ((monitor two one reset).clean ≡ Some 1) }

    // what goes out next is at place 5, after both
    ensures next { boxes one two message 0 ≡ Waiting 5 (Other (true ∷ [])) }
{}

/// Whatever happens to two hosts, in whatever order: resets that cross, fail, come late or are asked for again.
pub fn clean_reset()
    ensures { CleanReset }
{}

/// What two hosts hear of one another, link by link, while they stay together. A stay begins where both hosts are through a
/// reset, and ends for each of them where it leaves.
pub fn stays()
    ensures { Stays }
{}

/// Resets that cross, and an RRP that comes too early.
pub fn worked_resets()
    ensures { WorkedResets }
{}

/// Lists of events that may be.
pub fn worked_runs()
    // a reset and a message: so the laws don't speak of nothing
    ensures whole { IsRun (all_ours (one ∷ two ∷ [])) message }

    // a message goes out also while its destination is down
    ensures to_a_host_that_is_down { IsRun (all_ours (one ∷ two ∷ [])) (Out one two 0 Reset ∷ Contact one two ∷ Down two ∷ []) }

    // a stranger sends an RRP that nobody waits for, and asks while it is down; a host with a program doesn't, but to a stranger
    // nothing is asked of what it sends
    ensures stranger { IsRun strange_two (Out two one 0 Reply ∷ Contact two one ∷ []) × IsRun strange_two (Contact two one ∷ Down two ∷ []) }
    ensures to_a_stranger { IsRun strange_two (Out one two 0 Reply ∷ []) }
    ensures program { (IsRun strange_two (Contact one two ∷ Down one ∷ []) → ⊥) × (IsRun (all_ours (one ∷ two ∷ [])) (Out two one 0 Reply ∷ []) → ⊥) }
{}

/// What has to wait.
pub fn worked_sending()
    // an RRP, while a message is outstanding on any link
    ensures reply_waits { MaySend (pair one two reset_beside_data) 0 Reply → ⊥ }

    // any other message, while an RRP is owed
    ensures message_waits { MaySend (pair two one owing_reply) 0 (Other (true ∷ [])) → ⊥ }
    ensures reply_goes { MaySend (pair two one owing_reply) 0 Reply }
{}

/// Messages that fail, and hosts that stop.
pub fn worked_failures()
    ensures { WorkedFailures }
{}

/// What two hosts say and hear.
pub fn worked_stays()
    ensures { WorkedStays }
{}
