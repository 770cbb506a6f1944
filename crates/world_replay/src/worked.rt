//! Worked examples of what a world's replay prints. The functions here do nothing: each clause is a row, computed over
//! the definitions.

ghost use Rattle.std.specs.Prelude.{◌≡◌, List, [], ◌∷◌, ◌++◌, codes, replicate};
ghost use Rattle.interface.specs.declared.carrier.CarrierFault.TheVariants as fault;
ghost use Rattle.net_sim.specs.Worked.{eight, four, giver, message, over, taker};
ghost use Rattle.net_sim.specs.declared.event.Event.TheVariants as event;
ghost use Rattle.net_sim.specs.declared.event.WorldFault.TheVariants.{Carrier, Program};
ghost use Rattle.sockets.specs.Worked.{first, second};
ghost use Rattle.sockets.specs.declared.fault.NcpFault.TheVariants as problem;
ghost use Rattle.host_pairs.specs.declared.notice.Notice.TheVariants as notice;
ghost use Rattle.host_services.specs.declared.report.Report.TheVariants as report;
ghost use Rattle.icp.specs.declared.outcome.Failure.TheVariants as failure;
ghost use Rattle.icp.specs.declared.outcome.Outcome.TheVariants as outcome;
ghost use Rattle.world_replay.specs.Output.{Crossed, Noticed, Refused, Said, Shown, lives_output, notices_of, reports_of, shown_in_turn, told_in_turn};
ghost use Rattle.world_replay.specs.Printed.{life_text, notice_text, refusal_text, report_text};
ghost use Rattle.world_replay.specs.Replay.{HappensInCalm, IsOfCalm, MayDo, quiet_rounds};
ghost use Rattle.world_replay.specs.Worked.{after, came, counting, went, said_at, told_at};
ghost use Rattle.world_script.specs.declared.event.WorldEvent.TheVariants.{Calm, Happen};
ghost use Rattle.world_replay.specs.Laws.{WorkedNews};

/// The words of a line.
pub fn worked_lines()
    // about a peer: the host comes first
    ensures ready { notice_text first (notice.Ready second) ≡ codes "ready 0/1 0/2" }
    ensures failed { notice_text second (notice.ContactFailed first) ≡ codes "contactfailed 0/2 0/1" }
    ensures reset { notice_text first (notice.PairReset second) ≡ codes "pairreset 0/1 0/2" }
    ensures echoed { notice_text first (notice.Echoed second 255) ≡ codes "echoed 0/1 0/2 255" }
    ensures error { notice_text first (notice.RemoteError second 4 (replicate 10 0)) ≡ codes "error 0/1 0/2 4" }

    // about a connection: the host's own socket is after the host, and the stamps aren't printed
    ensures opened { notice_text first (notice.Opened 16 second 33 7 8) ≡ codes "opened 0/1 16 0/2 33" }
    ensures ended { notice_text first (notice.Ended 16 second 33) ≡ codes "ended 0/1 16 0/2 33" }
    ensures interrupt { notice_text first (notice.Interrupt 16) ≡ codes "interrupt 0/1 16" }

    // of bits their number
    ensures sent { notice_text second (notice.Sent 33 eight) ≡ codes "sent 0/2 33 8" }
    ensures arrived { notice_text first (notice.Arrived 16 (eight ++ four)) ≡ codes "arrived 0/1 16 12" }
    ensures returned { notice_text first (notice.Returned 16 1 4) ≡ codes "returned 0/1 16 1 4" }

    // a refusal by its name only, whoever refused
    ensures carrier { refusal_text (Carrier fault.NoSuch) ≡ codes "refused NoSuch" }
    ensures program { refusal_text (Program problem.NoSuchSocket) ≡ codes "refused NoSuchSocket" }
{}

/// The line of a life.
pub fn worked_lives()
    // a receiving end, with what it granted and got back, and the sending end of the same connection
    ensures receiver { life_text taker ≡ codes "life 0/1 16 0/2 33 0 4 receive 1 8 2 100 1 4 open" }
    ensures sender { life_text giver ≡ codes "life 0/2 33 0/1 16 2 1 send 1 8 0 0 0 0 open" }
    ensures over { life_text (over giver) ≡ codes "life 0/2 33 0/1 16 2 1 send 1 8 0 0 0 0 ended" }

    // in the order in which they were opened
    ensures both { lives_output (giver ∷ taker ∷ []) ≡ codes "life 0/2 33 0/1 16 2 1 send 1 8 0 0 0 0 open\nlife 0/1 16 0/2 33 0 4 receive 1 8 2 100 1 4 open\n" }
{}

/// The lines of what services report.
pub fn worked_reports()
    // what became of a server and of a user: the own sockets, the one that receives first, or the reason
    ensures server { report_text second (report.Server (outcome.Done 100 101)) ≡ codes "done server 0/2 100 101" }
    ensures user { report_text first (report.User (outcome.Done 18 19)) ≡ codes "done user 0/1 18 19" }
    ensures stranger { report_text second (report.Server (outcome.Failed failure.Stranger)) ≡ codes "failed server 0/2 stranger" }
    ensures refused { report_text first (report.User (outcome.Failed failure.Refused)) ≡ codes "failed user 0/1 refused" }

    // which request the own host refused, and why, isn't printed
    ensures local { report_text first (report.User (outcome.Failed (failure.Local problem.InUse))) ≡ codes "failed user 0/1 local" }

    // a line is whole after the host and a space, also if it is empty. What is no printing character of ASCII is a
    // question mark
    ensures line { report_text first (report.Line (codes "HELLO WORLD")) ≡ codes "line 0/1 HELLO WORLD" }
    ensures empty { report_text first (report.Line []) ≡ codes "line 0/1 " }
    ensures hidden { report_text first (report.Line (31 ∷ 32 ∷ 126 ∷ 127 ∷ 13 ∷ 255 ∷ [])) ≡ codes "line 0/1 ? ~???" }
{}

/// Crossings, notices and reports in one list.
pub fn worked_news()
    ensures { WorkedNews }
{}

/// What a world may have done where a write failed, and what not, over a carrier that counts its calls.
pub fn worked_failures()
    // the event happened once
    ensures once { MayDo counting (after 3) (Happen event.Quiet) (after 4) [] }

    // not at all, or twice
    ensures never { (shown : List Shown) → ¬ (MayDo counting (after 3) (Happen event.Quiet) (after 3) shown) }
    ensures twice { (shown : List Shown) → ¬ (MayDo counting (after 3) (Happen event.Quiet) (after 5) shown) }

    // of a calm, whose lines are printed round by round, all rounds have passed or the first ones, and no more than it
    // has
    ensures calm { MayDo counting (after 3) (Calm 2) (after 5) [] }
    ensures in_part { MayDo counting (after 3) (Calm 2) (after 4) [] }
    ensures too_long { (shown : List Shown) → ¬ (MayDo counting (after 3) (Calm 2) (after 6) shown) }

    // nothing is claimed of what the event's lines left
    ensures unknown { (s : Shown) → ¬ (MayDo counting (after 3) (Happen event.Quiet) (after 4) (s ∷ [])) }
{}

/// The events of a calm, one by one, over a carrier that counts its calls and has no hosts.
pub fn worked_calms()
    // a quiet round happens once
    ensures quiet { HappensInCalm counting (after 3) event.Quiet (after 4) [] }
    ensures twice { (shown : List Shown) → ¬ (HappensInCalm counting (after 3) event.Quiet (after 5) shown) }

    // a host that isn't there is refused, and that is not shown
    ensures refused { HappensInCalm counting (after 3) (event.Take first) (after 3) [] }
    ensures silent { (s : Shown) → ¬ (HappensInCalm counting (after 3) (event.Take first) (after 3) (s ∷ [])) }

    // quiet rounds are counted, and nobody types a line
    ensures rounds { quiet_rounds (event.Quiet ∷ event.Take first ∷ event.Offer first ∷ event.Quiet ∷ []) ≡ 2 }
    ensures typed { ¬ (IsOfCalm (event.Typed first [])) }
{}
