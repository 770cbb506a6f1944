//! What becomes of one flow, and of the log of a network whose flows all do so. The functions here do
//! nothing: each clause is the law.

ghost use Rattle.std.specs.Prelude.{◌≡◌, Bool, List, [], ◌++◌};
ghost use Rattle.std.specs.List.{Contains};
ghost use Rattle.interface.specs.Host.{Host};
ghost use Rattle.interface.specs.Mailboxes.{mail_of, IsFlowRun, IsRun, EachIsRun, UpsAreHosts};
ghost use Rattle.interface.specs.declared.address.Flow.{Flow};
ghost use Rattle.interface.specs.declared.crossing.Crossing.{Crossing};
ghost use Rattle.flow_law.specs.View.{View, Packet, mail_now};
ghost use Rattle.flow_law.specs.Moves.{Move, Needs, view_moved};
ghost use Rattle.flow_law.specs.Invariant.{Invariant};
ghost use Rattle.flow_law.specs.Runs.{FlowTurn, IsOpening, IsTurn, IsHistory, ByTest, left_by, view_after, seen_in};
ghost use Rattle.flow_law.specs.Follows.{AllFollow, OneFollows, AllOpen, AllSound, passed_over};
ghost use Rattle.flow_law.specs.Example.{at_first, worked, worked_seen, InOnePacket};
ghost use Rattle.flow_law.specs.Laws.{OneImp};

/// The law of one flow: for every way to cut texts into pieces, every start at which nothing was sent,
/// every list of moves and every loss, copy and overtaking of packets, what the hosts saw is a run of the
/// flow's mailbox.
pub fn mailbox()
    // what was seen is a run of the mailbox
    ensures flow { (test : List Bool → Packet → Bool) (start : View) (turns : List FlowTurn)
        → IsOpening start
        → IsHistory (ByTest test) start turns
        → IsFlowRun (mail_now start) (seen_in turns start) }

    // and leads to the hosts and the box of the view
    ensures mail { (test : List Bool → Packet → Bool) (start : View) (turns : List FlowTurn)
        → IsOpening start
        → IsHistory (ByTest test) start turns
        → mail_of (mail_now start) (seen_in turns start) ≡ mail_now (view_after turns start) }

    // the clauses of the invariant hold after each history
    ensures clauses { (test : List Bool → Packet → Bool) (start : View) (turns : List FlowTurn)
        → IsOpening start
        → IsHistory (ByTest test) start turns
        → Invariant (ByTest test) (view_after turns start) (Contains (left_by turns)) }

    // they hold at the start, and each turn keeps them
    ensures opening { (test : List Bool → Packet → Bool) (start : View) → IsOpening start → Invariant (ByTest test) start (Contains []) }
    ensures kept { (test : List Bool → Packet → Bool) (v : View) (alive : List Packet) (turn : FlowTurn)
        → Invariant (ByTest test) v (Contains alive)
        → IsTurn (Needs (ByTest test)) (ByTest test) v alive turn
        → Invariant (ByTest test) (view_moved turn.move v) (Contains turn.left) }
{}

/// What a network shows and gets: where each flow makes a list of moves at each step, and these show what
/// the flow sees of the step's crossings, each flow's part of the log stays a run of its mailbox.
pub fn interface()
    // a network in which nothing happened is sound
    ensures opening { (test : List Bool → Packet → Bool) (hosts : List Host) (view : Flow → View)
        → AllOpen hosts view
        → AllSound (ByTest test) hosts [] view (λ f. Contains []) }

    // a step in which each flow makes a list of moves keeps it sound
    ensures kept { (test : List Bool → Packet → Bool) (hosts : List Host) (entries log : List Crossing) (moves : Flow → List Move) (old new : Flow → View) (before left : Flow → List Packet)
        → AllFollow (ByTest test) hosts entries log moves old new (λ f. Contains (before f)) (λ f. Contains (left f))
        → AllSound (ByTest test) hosts log old (λ f. Contains (before f))
        → AllSound (ByTest test) hosts (entries ++ log) new (λ f. Contains (left f)) }

    // so does a step that concerns one flow, which makes a list of moves while the others stay
    ensures one { (test : List Bool → Packet → Bool) (hosts : List Host) (entries log : List Crossing) (g : Flow) (moves : List Move) (old new : Flow → View) (before left : Flow → List Packet)
        → UpsAreHosts hosts entries
        → OneFollows (ByTest test) entries log g moves old new (λ f. Contains (before f)) (λ f. Contains (left f))
        → AllSound (ByTest test) hosts log old (λ f. Contains (before f))
        → AllSound (ByTest test) hosts (entries ++ log) new (λ f. Contains (left f)) }

    // so does a step that nothing shows and that makes nothing: packets may be lost, copied, passed on or sent again
    ensures silent { (test : List Bool → Packet → Bool) (hosts : List Host) (log : List Crossing) (old new : Flow → View) (before left : Flow → List Packet)
        → ((f : Flow) → new f ≡ old f)
        → ((f : Flow) (x : Packet) → Contains (left f) x → Contains (before f) x)
        → AllSound (ByTest test) hosts log old (λ f. Contains (before f))
        → AllSound (ByTest test) hosts log new (λ f. Contains (left f)) }

    // what a flow sees of two lists of crossings, one upon the other
    ensures appended { (f : Flow) (entries others log : List Crossing) → passed_over f (entries ++ others) log ≡ passed_over f entries (others ++ log) ++ passed_over f others log }

    // and in a sound network each flow's part of the log is a run
    ensures sound { (test : List Bool → Packet → Bool) (hosts : List Host) (log : List Crossing) (view : Flow → View) (alive : Flow → List Packet)
        → AllSound (ByTest test) hosts log view (λ f. Contains (alive f))
        → EachIsRun hosts log }

    // so the log is a run of the mailboxes
    ensures run { (test : List Bool → Packet → Bool) (hosts : List Host) (log : List Crossing) (view : Flow → View) (alive : Flow → List Packet)
        → AllSound (ByTest test) hosts log view (λ f. Contains (alive f))
        → IsRun hosts log }
{}

/// A flow within one IMP, and a host that writes to itself: what their IMP does in one step is a list of
/// moves.
pub fn one_imp()
    ensures { OneImp }
{}

/// One message from its offer to its answer: the law is not about nothing.
pub fn worked_run()
    // nothing was sent, and each move finds what it needs, while a copy of the data stays alive
    ensures opening { IsOpening at_first }
    ensures history { IsHistory InOnePacket at_first worked }

    // the hosts see the message put, fetched and answered
    ensures seen { seen_in worked at_first ≡ worked_seen }
{}
