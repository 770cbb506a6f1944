//! What replays, logs and audits promise, as laws over their definitions. The functions here do nothing: their clauses
//! are the laws.

ghost use Rattle.std.specs.Prelude.{◌≡◌, ◌↔◌, ◌+◌, ℕ, Bool, true, false, List, [], ◌∷◌, length, reverse};
ghost use Rattle.std.specs.Prelude.{Ok, Option, Some, None, codes};
ghost use Rattle.book_judge.specs.Broken.{KeepsGrants};
ghost use Rattle.book_judge.specs.Fates.{AreSuited};
ghost use Rattle.book_judge.specs.Lives.{AreMade};
ghost use Rattle.book_judge.specs.Runs.{IsSomeRun};
ghost use Rattle.book_judge.specs.Toward.{AreToward};
ghost use Rattle.book_log.specs.Log as log;
ghost use Rattle.interface.specs.Host.{Host, is_host};
ghost use Rattle.interface.specs.Messages.{SafeMessages};
ghost use Rattle.interface.specs.declared.crossing.Crossing.TheVariants as crossing;
ghost use Rattle.interface.specs.declared.message.HostMessage.{HostMessage};
ghost use Rattle.net_sim.specs.Audit.{IsWellFormed, Says};
ghost use Rattle.net_sim.specs.Findings.{AreFed};
ghost use Rattle.net_sim.specs.declared.auditing.findings.Finding.{Finding};
ghost use Rattle.net_sim.specs.declared.auditing.findings.Finding.TheVariants as finding;
ghost use Rattle.net_sim.specs.declared.auditing.said.Audit.TheVariants as audit;
ghost use Rattle.promise.specs.Fates.{ClosesWhole};
ghost use Rattle.promise.specs.Formed.{FormedBook};
ghost use Rattle.promise.specs.Safe.{SafePartners};
ghost use Rattle.promise.specs.declared.life.Amount.{Amount};
ghost use Rattle.promise.specs.declared.life.Life.{Life};
ghost use Rattle.world_keeps_streams.specs.Sent.{EachWasSent};
ghost use Rattle.replay.specs.declared.print.Detail.{Detail};
ghost use Rattle.command_line.specs.Audits.{IsKeptLog, IsSafeLog, KeepsEnds, SaysKept, SaysOf, TellsOf, kept, layout_of, place_in};
ghost use Rattle.command_line.specs.Audits.{found_text, malformed_text, toward_text};
ghost use Rattle.command_line.specs.Audits.{program_fates, program_lists, program_lives, word_text};
ghost use Rattle.command_line.specs.Laws.{FirstPart, OneBook, OneOutput, OneReplay, WorkedAmong, WorkedLines, WorkedLives};
ghost use Rattle.command_line.specs.Lived.{AreLived};
ghost use Rattle.command_line.specs.Logs.{Logged, LogsInput};
ghost use Rattle.command_line.specs.PrintedAmong.{PrintsOn, PrintsPartOn};
ghost use Rattle.command_line.specs.Replayed.{Ran, RanInPart};
ghost use Rattle.command_line.specs.Worked.{here, life_one, there, told_one, took_one};
ghost use Rattle.command_line.specs.WorkedVerdicts.{IsNeverSaid, NotSaid, matched_past};
ghost use Rattle.command_line.specs.WorkedVerdicts.{beside_one, broken_beside, broken_lines};
ghost use Rattle.command_line.specs.declared.verdict.Verdict.{Verdict};

/// The input determines the output, with the book and without it, with texts and without them. It asks for one list of
/// events over the carrier of one topology, and neither plain mailboxes nor a subnet leave their replay a choice,
/// without host programs or with them, nor where strangers are among them.
pub fn one_output()
    ensures { OneOutput }
{}

/// What was written before memory ran out is a prefix of what the whole replay writes.
pub fn first_part()
    ensures { FirstPart }
{}

/// The input determines its log.
pub fn one_log()
    ensures { (input before after other : List ℕ) → LogsInput input (Some before) (Some after) → LogsInput input (Some before) (Some other) → after ≡ other }
{}

/// The outputs of one input are of one replay. Whether the book and texts are asked for only decides how much of it is
/// printed; and the log is that of the crossings and the lives that are printed.
pub fn one_replay()
    ensures { OneReplay }
{}

/// What is printed is one book, of whatever network and events, with the book or without it: all that lines show is in
/// it, and its lives, which are printed where the book is asked for, are those that the lines make. In a network
/// without host programs there are none. Where memory runs out the lines are still those of such a book. Where some
/// hosts are strangers, it is the book of the others.
pub fn printed_books()
    ensures whole { (book : Bool) (detail : Detail) (before after : Option (List ℕ)) (h : Ran book detail before after) → PrintsOn h.network h.events book detail before after }
    ensures part { (detail : Detail) (before after : Option (List ℕ)) (h : RanInPart detail before after) → PrintsPartOn h.network h.events detail before after }
{}

/// What it means that lines and lives are one book: all that was promised holds of what the lines show.
pub fn one_book()
    ensures { OneBook }
{}

/// Lines that no book has.
pub fn worked_lines()
    ensures { WorkedLines }
{}

/// Lines and lives that no book of a network with strangers has.
pub fn worked_among()
    ensures { WorkedAmong }
{}

/// The lives that crossings and notices make: of an end where one message arrived.
pub fn worked_made()
    // whatever its user granted
    ensures made { (m : HostMessage) → AreLived (took_one m) told_one (life_one ∷ []) }
    ensures granted { (m : HostMessage) (granted : Amount) → AreLived (took_one m) told_one (record life_one { granted = granted } ∷ []) }

    // other bits, another count, another stamp, bits that were given back, and a life that is over
    ensures other_bits { (m : HostMessage) → AreLived (took_one m) told_one (record life_one { bits = false ∷ false ∷ [] } ∷ []) → ⊥ }
    ensures other_count { (m : HostMessage) → AreLived (took_one m) told_one (record life_one { messages = 2 } ∷ []) → ⊥ }
    ensures other_stamp { (m : HostMessage) → AreLived (took_one m) told_one (record life_one { partner_stamp = 2 } ∷ []) → ⊥ }
    ensures returned { (m : HostMessage) → AreLived (took_one m) told_one (record life_one { returned = record { messages = 1; bits = 0 } } ∷ []) → ⊥ }
    ensures over { (m : HostMessage) → AreLived (took_one m) told_one (record life_one { ended = true } ∷ []) → ⊥ }

    // a host that stops ends its lives, and no other does
    ensures stopped { (m : HostMessage) → AreLived (crossing.Down here ∷ took_one m) told_one (record life_one { ended = true } ∷ []) }
    ensures other_stopped { (m : HostMessage) → AreLived (crossing.Down there ∷ took_one m) told_one (life_one ∷ []) }
    ensures still_alive { (m : HostMessage) → AreLived (crossing.Down here ∷ took_one m) told_one (life_one ∷ []) → ⊥ }
{}

/// What `--log` writes is a log, of whatever network and events, with strangers or without. Its book is kept, and what
/// crossed in it is a run of the mailboxes. So whoever reads it comes to this book, and to this verdict.
pub fn logs_are_kept()
    ensures { (octets : List ℕ) → Logged (Some []) (Some octets) → IsKeptLog octets }
{}

/// What an audit names is broken, and what it doesn't name holds. A malformed book has requests that nothing names, so
/// its partners, streams, grants, sent, closes and toward aren't looked at. Of a network with strangers all but a run,
/// messages, the form and toward are of the lives among hosts with programs.
pub fn named_parts()
    ensures run { (hosts : List Host) (b : log.Book) (v : Verdict) → SaysOf v hosts b → (v.stray ≡ None) ↔ IsSomeRun (reverse b.crossings) }
    ensures lives { (hosts : List Host) (b : log.Book) (v : Verdict) → SaysOf v hosts b → (v.unmade ≡ None) ↔ AreMade (reverse b.crossings) (program_lives hosts b) }
    ensures made { (hosts : List Host) (b : log.Book) (v : Verdict) → SaysOf v hosts b → v.unmade ≡ None → FormedBook (reverse b.crossings) (program_lives hosts b) }
    ensures formed { (hosts : List Host) (b : log.Book) (v : Verdict) → SaysOf v hosts b → (v.malformed ≡ None) ↔ IsWellFormed (reverse b.crossings) (log.lives_of b) b.handed }
    ensures messages { (hosts : List Host) (b : log.Book) (v : Verdict) → SaysOf v hosts b → (v.messages ≡ None) ↔ SafeMessages (reverse b.crossings) }
    ensures partners { TellsOf (λ v. v.partners) (λ hosts b. SafePartners (reverse b.crossings) (program_lives hosts b)) }
    ensures streams { TellsOf (λ v. v.streams) (λ hosts b. AreFed (reverse b.crossings) (program_lives hosts b) (program_lives hosts b) (program_lists hosts b)) }
    ensures grants { TellsOf (λ v. v.grants) (λ hosts b. KeepsGrants (reverse b.crossings) (program_lives hosts b)) }
    ensures sent { TellsOf (λ v. v.sent) (λ hosts b. EachWasSent (reverse b.crossings) (program_lives hosts b)) }
    ensures closes { TellsOf (λ v. v.closes) (λ hosts b. ClosesWhole (reverse b.crossings) (program_lives hosts b) (program_lists hosts b) (program_fates hosts b)) }
    ensures fates { (hosts : List Host) (b : log.Book) (v : Verdict) → SaysOf v hosts b → (v.unsuited ≡ None) ↔ AreSuited (reverse b.crossings) (program_lives hosts b) (program_fates hosts b) }
    ensures toward { TellsOf (λ v. v.toward) (λ hosts b. AreToward (λ h. is_host hosts h) (log.lives_of b) b.handed) }

    // where nothing is named the book is safe, and nothing is named of a safe book
    ensures safe { (hosts : List Host) (b : log.Book) → SaysOf kept hosts b → Says audit.Kept (reverse b.crossings) (program_lives hosts b) (program_lists hosts b) }
    ensures kept { (hosts : List Host) (b : log.Book) (v : Verdict) → SaysOf kept hosts b → SaysOf v hosts b → v ≡ kept }
{}

/// Without strangers all lives are among hosts with programs, each at its own place, and nothing is toward a stranger. So
/// what is said of such a log is about all that it has.
pub fn without_strangers()
    ensures lives { (b : log.Book) → program_lives [] b ≡ log.lives_of b }
    ensures lists { (b : log.Book) → program_lists [] b ≡ b.handed }
    ensures fates { (b : log.Book) → program_fates [] b ≡ log.fates_of b }
    ensures places { (b : log.Book) (n : ℕ) → place_in (layout_of [] b).among n ≡ n }
    ensures toward { (b : log.Book) (v : Verdict) → SaysOf v [] b → v.toward ≡ None }
{}

/// The word at the end of an audit: `kept` where all holds, `safe` where only closes or fates don't, and none where
/// something is wrong that may be asked of the log of any host's program.
pub fn last_words()
    ensures kept { (hosts : List Host) (b : log.Book) (v : Verdict) → SaysOf v hosts b → (word_text v ≡ codes "kept\n") ↔ (IsSafeLog hosts b × KeepsEnds hosts b) }
    ensures safe { (hosts : List Host) (b : log.Book) (v : Verdict) → SaysOf v hosts b → (word_text v ≡ codes "safe\n") ↔ (IsSafeLog hosts b × (KeepsEnds hosts b → ⊥)) }
    ensures none { (hosts : List Host) (b : log.Book) (v : Verdict) → SaysOf v hosts b → (word_text v ≡ []) ↔ (IsSafeLog hosts b → ⊥) }
{}

/// The words of verdicts.
pub fn worked_words()
    // closes, fates, and both
    ensures closes { (at : Finding) → word_text (record kept { closes = Some at }) ≡ codes "safe\n" }
    ensures fates { (n : ℕ) → word_text (record kept { unsuited = Some n }) ≡ codes "safe\n" }
    ensures ends { (at : Finding) (n : ℕ) → word_text (record kept { closes = Some at; unsuited = Some n }) ≡ codes "safe\n" }

    // anything else, with them or without
    ensures run { (n : ℕ) → word_text (record kept { stray = Some n }) ≡ [] }
    ensures lives { (n : ℕ) → word_text (record kept { unmade = Some n }) ≡ [] }
    ensures malformed { (at : Finding) → word_text (record kept { malformed = Some at }) ≡ [] }
    ensures messages { (at : Finding) → word_text (record kept { messages = Some at }) ≡ [] }
    ensures partners { (at : Finding) → word_text (record kept { partners = Some at }) ≡ [] }
    ensures streams { (at : Finding) → word_text (record kept { streams = Some at }) ≡ [] }
    ensures grants { (at : Finding) → word_text (record kept { grants = Some at }) ≡ [] }
    ensures sent { (at : Finding) → word_text (record kept { sent = Some at }) ≡ [] }
    ensures toward { (n : ℕ) → word_text (record kept { toward = Some n }) ≡ [] }
    ensures both { (at : Finding) (n : ℕ) → word_text (record kept { grants = Some at; unsuited = Some n }) ≡ [] }
{}

/// Places at which a part of a log isn't broken: partners are broken at two lives, the second one after the first, and
/// streams, grants, what was sent, and closes at a life.
pub fn worked_judged()
    ensures one { (n : ℕ) → NotSaid (record kept { partners = Some (finding.Life n) }) }
    ensures exchanged { (n : ℕ) → NotSaid (record kept { partners = Some (finding.Lives (n + 1) n) }) }
    ensures crossing { (n : ℕ) → NotSaid (record kept { streams = Some (finding.Crossing n) }) }
    ensures list { (n : ℕ) → NotSaid (record kept { grants = Some (finding.List n) }) }
    ensures sent { (n : ℕ) → NotSaid (record kept { sent = Some (finding.Crossing n) }) }
    ensures match_past { IsNeverSaid matched_past }
{}

/// Places past the end of a log, where nothing of it is broken: no audit names such a place.
pub fn worked_first()
    ensures run { IsNeverSaid (λ _ b. record kept { stray = Some (length b.crossings) }) }
    ensures lives { IsNeverSaid (λ hosts b. record kept { unmade = Some (length (program_lives hosts b)) }) }
    ensures malformed { IsNeverSaid (λ _ b. record kept { malformed = Some (finding.Life (length (log.lives_of b))) }) }
    ensures messages { IsNeverSaid (λ _ b. record kept { messages = Some (finding.Crossing (length b.crossings)) }) }
    ensures fates { IsNeverSaid (λ hosts b. record kept { unsuited = Some (length (program_lives hosts b)) }) }
    ensures toward { IsNeverSaid (λ _ b. record kept { toward = Some (length (log.lives_of b) + length b.handed) }) }
{}

/// The lines of an audit, by their places: of a log of one stranger, three crossings and three lives, the first of
/// which is toward the stranger.
pub fn worked_places()
    // run and messages are about all crossings, lives, partners, streams and fates about lives among programs
    ensures said { found_text beside_one broken_beside ≡ broken_lines }

    // toward and malformed are about all lives, and lists come after them
    ensures toward { toward_text beside_one (Some 0) ≡ codes "broken toward line 5\n" }
    ensures life { malformed_text beside_one (Some (finding.Life 0)) ≡ codes "malformed line 5\n" }
    ensures list { malformed_text beside_one (Some (finding.List 2)) ≡ codes "malformed line 10\n" }
{}

/// Of a log that is kept nothing else is said.
pub fn worked_verdicts()
    ensures { (octets : List ℕ) (said : Verdict) → SaysKept octets (Ok said) → said ≡ kept }
{}

/// Lives that no replay shows.
pub fn worked_lives()
    ensures { WorkedLives }
{}
