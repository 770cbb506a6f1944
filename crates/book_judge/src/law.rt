//! Logs that are runs between some hosts, and logs that stop being one; a book that is whole, and one that is malformed; a life that
//! lost something where it closed, and one that didn't; lives that are made of what crossed, and one that isn't. The functions here do nothing: each clause is a row.

ghost use Rattle.std.specs.Prelude.{◌≡◌, ℕ, Bool, false, true, List, Some, [], ◌∷◌, ◌++◌};
ghost use Rattle.interface.specs.Host.{Host};
ghost use Rattle.interface.specs.declared.address.Flow.{Flow};
ghost use Rattle.interface.specs.declared.crossing.Answer.{Answer};
ghost use Rattle.interface.specs.declared.crossing.Answer.TheVariants as answer;
ghost use Rattle.interface.specs.declared.crossing.Crossing.{Crossing};
ghost use Rattle.interface.specs.declared.crossing.Crossing.TheVariants as crossing;
ghost use Rattle.interface.specs.declared.message.HostMessage.{HostMessage};
ghost use Rattle.net_sim.specs.declared.auditing.findings.Finding.{Finding};
ghost use Rattle.net_sim.specs.declared.auditing.findings.Finding.TheVariants as finding;
ghost use Rattle.net_sim.specs.Findings.{EndsAt, ShowsLife};
ghost use Rattle.net_sim.specs.Worked.{eight, four};
ghost use Rattle.net_sim.specs.WorkedMoments.{rts, str};
ghost use Rattle.book_judge.specs.WorkedLives.{again_log, down_log, late_answer, reset_log, stopped_log};
ghost use Rattle.book_judge.specs.WorkedLives.{third_down_log, third_log};
ghost use Rattle.book_judge.specs.WorkedLives.{took_after, took_again, took_from_third, took_nothing, unasked};
ghost use Rattle.book_judge.specs.WorkedLives.{AreApart, MayNotSend, MaySend, SecondIsNamed, gave_these, took_two};
ghost use Rattle.std.specs.List.{list_any};
ghost use Rattle.promise.specs.Ends.{CanBeLeft, Closed, Dropped, Going, Over, Stopped};
ghost use Rattle.promise.specs.Fates.{ClosesWhole};
ghost use Rattle.promise.specs.Formed.{FormedBook};
ghost use Rattle.promise.specs.declared.life.Fate.{Fate};
ghost use Rattle.promise.specs.declared.life.Fate.TheVariants as fate;
ghost use Rattle.promise.specs.declared.life.Life.{Life};
ghost use Rattle.world_keeps_lives.specs.WorkedFormed.{gave, sent_log, took};
ghost use Rattle.book_judge.specs.Broken.{IsBroken, first_closed, first_grants, only_malformed, unbroken};
ghost use Rattle.book_judge.specs.Fates.{AreSuited, UnsuitedAt, suits};
ghost use Rattle.book_judge.specs.Lives.{AreMade, UnmadeAt};
ghost use Rattle.book_judge.specs.Runs.{IsSomeRun, StraysAt};
ghost use Rattle.book_judge.specs.Toward.{AreToward, UntowardAt};

use world_keeps_lives::law::worked_formed;
use world_keeps_streams::worked_sent::worked_granted;

/// Logs of one crossing.
pub fn worked_runs()
    // whoever hands over a message is a host of the network, and so is whoever goes down
    ensures out { (m : HostMessage) → IsSomeRun (crossing.Out m ∷ []) }
    ensures down { (h : Host) → IsSomeRun (crossing.Down h ∷ []) }

    // but a host is up before anything has crossed, and no message is outstanding
    ensures up { (h : Host) → IsSomeRun (crossing.Up h ∷ []) → ⊥ }
    ensures taken { (m : HostMessage) → IsSomeRun (crossing.In m ∷ []) → ⊥ }
    ensures answer { (kind : Answer) (f : Flow) → IsSomeRun (crossing.Answer kind f ∷ []) → ⊥ }
{}

/// A message that is answered twice, and one that goes out after that: the log, the oldest first, stops being a run at the second answer.
pub fn worked_strays()
    ensures here { (m : HostMessage) → StraysAt (crossing.Out m ∷ crossing.Answer answer.Dead m.flow ∷ crossing.Answer answer.Dead m.flow ∷ crossing.Out m ∷ []) 2 }
    ensures earlier { (m : HostMessage) → StraysAt (crossing.Out m ∷ crossing.Answer answer.Dead m.flow ∷ crossing.Answer answer.Dead m.flow ∷ crossing.Out m ∷ []) 1 → ⊥ }
    ensures later { (m : HostMessage) → StraysAt (crossing.Out m ∷ crossing.Answer answer.Dead m.flow ∷ crossing.Answer answer.Dead m.flow ∷ crossing.Out m ∷ []) 3 → ⊥ }
{}

/// Lists without lives: a book of none is whole, and of one the list shows that it is malformed. Nothing else is named of that.
pub fn worked_broken()
    ensures whole { IsBroken unbroken [] [] [] [] }
    ensures list { (h : List Bool) → IsBroken (only_malformed (finding.List 0)) [] [] (h ∷ []) [] }

    // not as a life, not as whole, and no part beside it
    ensures no_life { (h : List Bool) (n : ℕ) → IsBroken (only_malformed (finding.Life n)) [] [] (h ∷ []) [] → ⊥ }
    ensures not_whole { (h : List Bool) → IsBroken unbroken [] [] (h ∷ []) [] → ⊥ }
    ensures no_part { (h : List Bool) (found : Finding) → IsBroken (record (only_malformed (finding.List 0)) { grants = Some found }) [] [] (h ∷ []) [] → ⊥ }
{}

/// Of a life that sent three messages, where the ALLs that its host took grant two.
pub fn worked_grants()
    // grants are broken, at this life, though no life that took any is there
    ensures broken { IsBroken unbroken sent_log (record gave { messages = 3 } ∷ []) ([] ∷ []) [] → ⊥ }
    ensures here { EndsAt (first_grants sent_log (record gave { messages = 3 } ∷ [])) 0 }
{
    worked_granted();
}

/// Of the lives of a world in which eight bits were sent, and twelve handed over, the one that took the eight.
pub fn worked_closes()
    // its partner ended it, so it took all that was handed over: eight bits, and not twelve
    ensures whole { ClosesWhole sent_log (took ∷ gave ∷ []) ([] ∷ eight ∷ []) (fate.Ended ∷ fate.Open ∷ []) }
    ensures lost { ShowsLife (first_closed sent_log (took ∷ gave ∷ []) ([] ∷ (eight ++ four) ∷ []) (fate.Ended ∷ fate.Open ∷ [])) (finding.Lives 0 1) sent_log (took ∷ gave ∷ []) }

    // what isn't named holds: closes, and streams, of which nothing was handed over
    ensures closes { IsBroken unbroken sent_log (took ∷ gave ∷ []) ([] ∷ (eight ++ four) ∷ []) (fate.Ended ∷ []) → ⊥ }
    ensures streams { IsBroken unbroken sent_log (took ∷ gave ∷ []) ([] ∷ [] ∷ []) [] → ⊥ }

    // its own user closed it, or only the other life was ended: then it need not
    ensures closed { ClosesWhole sent_log (took ∷ gave ∷ []) ([] ∷ (eight ++ four) ∷ []) (fate.Closed ∷ fate.Ended ∷ []) }
{}

/// Fates of lives, by how far these are by what crossed.
pub fn worked_fates()
    // one that continues is open, or a contact has just reset it
    ensures open { suits (Going false true) fate.Open ≡ true }
    ensures closing { suits (Going true false) fate.Closing ≡ true }
    ensures contact { suits (Going false false) fate.Reset ≡ true }
    ensures not_ended { suits (Going false true) fate.Ended ≡ false }
    ensures not_closed { suits (Going true false) fate.Closed ≡ false }
    ensures not_stopped { suits (Going false false) fate.Stopped ≡ false }

    // one that its host's stop ended isn't open, but a contact may have reset it before
    ensures stopped { suits (Over Stopped 3) fate.Stopped ≡ true }
    ensures sooner { suits (Over Stopped 3) fate.Reset ≡ true }
    ensures restarted { suits (Over Stopped 3) fate.Open ≡ false }

    // nor is one whose connections were dropped
    ensures reset { suits (Over Dropped 3) fate.Reset ≡ true }
    ensures dropped { suits (Over Dropped 3) fate.Open ≡ false }
    ensures not_by_cls { suits (Over Dropped 3) fate.Closed ≡ false }

    // one whose partner's CLS was the first may be closed or ended; whose own was the first, its own user had closed
    ensures ended { suits (Over (Closed false) 3) fate.Ended ≡ true }
    ensures closed { suits (Over (Closed false) 3) fate.Closed ≡ true }
    ensures closed_first { suits (Over (Closed true) 3) fate.Closed ≡ true }
    ensures not_ended_first { suits (Over (Closed true) 3) fate.Ended ≡ false }
    ensures over { suits (Over (Closed true) 3) fate.Open ≡ false }

    // a contact may have come before the partner's CLS, but not before its own went out
    ensures called_first { suits (Over (Closed true) 3) fate.Reset ≡ true }
    ensures not_called { suits (Over (Closed false) 3) fate.Reset ≡ false }

    // nothing else suits one that is over
    ensures only_reset { list_any (suits (Over Dropped 3)) (fate.Closing ∷ fate.Ended ∷ fate.Stopped ∷ []) ≡ false }
    ensures only_stopped { list_any (suits (Over Stopped 3)) (fate.Closing ∷ fate.Closed ∷ fate.Ended ∷ []) ≡ false }
    ensures by_peer { list_any (suits (Over (Closed false) 3)) (fate.Open ∷ fate.Closing ∷ fate.Stopped ∷ []) ≡ false }
    ensures by_own { list_any (suits (Over (Closed true) 3)) (fate.Closing ∷ fate.Stopped ∷ []) ≡ false }

    // of a life that hasn't begun nothing is said; one whose host stopped between its requests no fate suits
    ensures nothing { (x : Life) (f : Fate) → AreSuited [] (x ∷ []) (f ∷ []) }
    ensures early { (f : Fate) → AreSuited (crossing.In str ∷ crossing.Down late_answer.host ∷ crossing.Out rts ∷ []) (late_answer ∷ []) (f ∷ []) → ⊥ }

    // where some contacts leave lives their fates, these suit what crossed: each, and all of a host with a peer
    ensures contacts { (log : List Crossing) (lives : List Life) (fates : List Fate) → CanBeLeft log lives fates → AreSuited log lives fates }
{}

/// Lives that nothing that crossed has reset, and contacts, each of which resets all lives of its host with the peer.
pub fn worked_contacts()
    // of two lives of one host with one peer a contact resets both, and none of the peer's
    ensures both { AreSuited sent_log (took ∷ took_nothing ∷ []) (fate.Reset ∷ fate.Reset ∷ []) }
    ensures neither { AreSuited sent_log (took ∷ took_nothing ∷ []) (fate.Open ∷ fate.Closing ∷ []) }
    ensures not_peers { AreSuited sent_log (took ∷ gave ∷ []) (fate.Reset ∷ fate.Open ∷ []) }

    // nor any with another peer
    ensures other_peer { AreSuited third_log (took ∷ took_from_third ∷ []) (fate.Reset ∷ fate.Open ∷ []) }

    // not one without the other, whichever it is; and it is the second that is named
    ensures not_one { AreSuited sent_log (took ∷ took_nothing ∷ []) (fate.Reset ∷ fate.Open ∷ []) → ⊥ }
    ensures not_other { AreSuited sent_log (took ∷ took_nothing ∷ []) (fate.Open ∷ fate.Reset ∷ []) → ⊥ }
    ensures second { UnsuitedAt sent_log (took ∷ took_nothing ∷ []) (fate.Reset ∷ fate.Open ∷ []) 1 }
    ensures not_first { UnsuitedAt sent_log (took ∷ took_nothing ∷ []) (fate.Reset ∷ fate.Open ∷ []) 0 → ⊥ }

    // a life that hasn't begun continues with none
    ensures unasked { AreSuited sent_log (took ∷ unasked ∷ []) (fate.Reset ∷ fate.Open ∷ []) }

    // and no contact has reset it, whatever its fate
    ensures unbegun { AreSuited sent_log (unasked ∷ took ∷ []) (fate.Reset ∷ fate.Open ∷ []) }

    // where their host stops, a contact before that has reset both, and none with another peer
    ensures both_down { AreSuited down_log (took ∷ took_nothing ∷ []) (fate.Reset ∷ fate.Reset ∷ []) }
    ensures not_one_down { AreSuited down_log (took ∷ took_nothing ∷ []) (fate.Reset ∷ fate.Stopped ∷ []) → ⊥ }
    ensures other_down { AreSuited third_down_log (took ∷ took_from_third ∷ []) (fate.Reset ∷ fate.Stopped ∷ []) }

    // a contact before the partner's CLS resets what begins after that; not where an RST comes first
    ensures not_later { AreSuited again_log (took ∷ took_again ∷ []) (fate.Reset ∷ fate.Open ∷ []) → ⊥ }
    ensures after_reset { AreSuited reset_log (took ∷ took_after ∷ []) (fate.Reset ∷ fate.Open ∷ []) }

    // and one that is over when the contact comes needn't be `reset`
    ensures over { AreSuited again_log (took ∷ took_again ∷ []) (fate.Closed ∷ fate.Reset ∷ []) }
{}

/// Lives of small logs, the newest crossing first.
pub fn worked_lives()
    // those of a world in which eight bits were sent
    ensures made { AreMade sent_log (took ∷ gave ∷ []) }

    // each is formed; and none that counts a message which came in after its host had stopped is made so
    ensures formed { (log : List Crossing) (lives : List Life) → AreMade log lives → FormedBook log lives }
    ensures late { AreMade stopped_log (took ∷ []) → ⊥ }

    // no life is made of nothing
    ensures nothing { (x : Life) → UnmadeAt [] (x ∷ []) 0 }
    ensures none { AreMade [] [] }

    // what is named is the first life that isn't made: not one that is, and not one after it
    ensures no_made { UnmadeAt sent_log (took ∷ gave ∷ []) 0 → ⊥ }
    ensures no_later { (x y : Life) → UnmadeAt [] (x ∷ y ∷ []) 1 → ⊥ }
{
    worked_formed();
}

/// Lives toward strangers, and others: which keep what may be asked of them.
pub fn worked_toward()
    // a stranger's, whatever it is, and one between hosts with programs, whatever it took and sent
    ensures owner { (strange : Host → Bool) (x : Life) (text : List Bool) → strange x.host ≡ true → UntowardAt strange (x ∷ []) (text ∷ []) 0 }
    ensures among { (strange : Host → Bool) (x : Life) (text : List Bool) → strange x.host ≡ false → strange x.peer ≡ false → AreToward strange (x ∷ []) (text ∷ []) }

    // two bits in one message, where just so much was granted, a bit less, and no message
    ensures granted { (strange : Host → Bool) (text : List Bool) → AreApart strange took.host took.peer → AreToward strange (took_two (record { messages = 1; bits = 2 }) ∷ []) (text ∷ []) }
    ensures bits { (strange : Host → Bool) (text : List Bool) → AreApart strange took.host took.peer → AreToward strange (took_two (record { messages = 1; bits = 1 }) ∷ []) (text ∷ []) → ⊥ }
    ensures messages { (strange : Host → Bool) (text : List Bool) → AreApart strange took.host took.peer → AreToward strange (took_two (record { messages = 0; bits = 2 }) ∷ []) (text ∷ []) → ⊥ }

    // what was handed over, and another bit
    ensures handed { (strange : Host → Bool) (text : List Bool) → AreApart strange gave.host gave.peer → AreToward strange (gave_these text ∷ []) (text ∷ []) }
    ensures other { (strange : Host → Bool) → AreApart strange gave.host gave.peer → AreToward strange (gave_these (true ∷ []) ∷ []) ((false ∷ []) ∷ []) → ⊥ }

    // less than was handed over, and more
    ensures less { MaySend (true ∷ false ∷ []) (true ∷ []) }
    ensures more { MayNotSend (true ∷ []) (true ∷ false ∷ []) }

    // what is named is the first that isn't so, also the second of two, and not one after it
    ensures second { (x y : Life) → SecondIsNamed x y }
    ensures later { (strange : Host → Bool) (x y : Life) (text more : List Bool) → strange x.host ≡ true → UntowardAt strange (x ∷ y ∷ []) (text ∷ more ∷ []) 1 → ⊥ }
{}
