//! What a host's program says and hears of connections. The functions here do nothing: each clause is a law.

ghost use Rattle.std.specs.Prelude.{◌≡◌, ℕ, Bool, List, [], ◌∷◌};
ghost use Rattle.interface.specs.Host.{Host};
ghost use Rattle.pairing_law.specs.Marks.{Ask, Close};
ghost use Rattle.pairing_law.specs.Places.{tagged};
ghost use Rattle.reset_law.specs.Events.{Event, In, Out, Other};
ghost use Rattle.reset_law.specs.Example.{one, two};
ghost use Rattle.reset_law.specs.Network.{AreOurs, Network};
ghost use Rattle.reset_law.specs.Runs.{IsRun};
ghost use Rattle.host_keeps_pairing.specs.Spoken.{IsHeardAsSaid, asking, listened, reset_of_two, spoken, untagged};
ghost use Rattle.host_keeps_pairing.specs.Laws.Calls.{Endings, Hearing, KnownPartners, Openings, Saying};
ghost use Rattle.host_keeps_pairing.specs.Laws.Worked.{WorkedEndings, WorkedEnds, WorkedFinding, WorkedOpenings};
ghost use Rattle.host_keeps_pairing.specs.Laws.Worked.{WorkedPrograms, WorkedWords};

/// What a host says: where its program has, for two sockets and a peer, an end of the law of pairing, all that goes out of it is
/// what the law lets it say of that end, and the program has the end after it.
pub fn saying()
    ensures { Saying }
{}

/// What a host hears of a peer in a message for it.
pub fn hearing()
    ensures { Hearing }
{}

/// The openings of which a host's user is notified are lives of the law: what was notified stays some of the lives, in their order, after each
/// call. A partner's request is given by the place where it was taken, and the law's by that where it went out.
pub fn openings()
    ensures { Openings }
{}

/// What a host's user knows to be open is open: where its program reported an opening on two sockets with a peer, and hasn't reported since that the
/// end is over, the law's end there is open by the two requests that were reported. Each call keeps this.
pub fn endings()
    ensures { Endings }
{}

/// Where the users of two hosts both know of an open end on the same sockets, each end is the other's partner, if the two ends of
/// which they know are those of a run of the law.
pub fn known_partners()
    ensures { KnownPartners }
{}

/// Openings of which users are notified, and lives.
#[tactic(auto, using(crate::proofs::Rows::some_among, crate::proofs::Rows::none_turned, crate::proofs::Rows::none_twice, crate::proofs::Rows::dialogue_lives))]
pub fn worked_openings()
    ensures { WorkedOpenings }
{}

/// What a host's user knows of its end on socket 16, with socket 33 of host `second`.
#[tactic(auto, using(crate::proofs::Rows::dialogue_known, crate::proofs::Rows::dialogue_over, crate::proofs::Rows::dialogue_peer))]
pub fn worked_endings()
    ensures { WorkedEndings }
{}

/// What two hosts said and heard of two sockets since both were through a reset, over the law of resets.
pub fn words()
    // a text that carries its place is parted again
    ensures parted { (place : ℕ) (text : List Bool) → untagged (tagged place text) ≡ (place, text) }

    // what a host heard is what its peer said first, mark by mark and place by place
    ensures front { (hosts : Network) (events : List Event) → IsRun hosts events → (a b : Host) → AreOurs hosts a b → IsHeardAsSaid a b events }
{}

/// Words of two sockets: host `one` asks host `two` for a connection, and closes it, in one message.
pub fn worked_spoken()
    // the message goes out at place 5; the newest mark comes first
    ensures said { spoken one two 16 33 (Out one two 0 (Other asking) ∷ reset_of_two) ≡ Close ∷ Ask 5 ∷ [] }
    ensures unheard { listened one two 16 33 (Out one two 0 (Other asking) ∷ reset_of_two) ≡ [] }
    ensures heard { listened one two 16 33 (In one two 0 (Other asking) ∷ Out one two 0 (Other asking) ∷ reset_of_two) ≡ Close ∷ Ask 5 ∷ [] }

    // nothing is said of the same sockets the other way, by the other host, or out of a stay
    ensures turned { spoken one two 33 16 (Out one two 0 (Other asking) ∷ reset_of_two) ≡ [] }
    ensures peer { spoken two one 16 33 (Out one two 0 (Other asking) ∷ reset_of_two) ≡ [] }
    ensures alone { spoken one two 16 33 (Out one two 0 (Other asking) ∷ []) ≡ [] }
{}

/// What commands say of two sockets.
pub fn worked_words()
    ensures { WorkedWords }
{}

/// Ends as the law has them.
pub fn worked_ends()
    ensures { WorkedEnds }
{}

/// What a host finds.
pub fn worked_finding()
    ensures { WorkedFinding }
{}

/// Programs in a dialogue: host `first` receives on socket 16 what `second` sends from 33.
pub fn worked_programs()
    ensures { WorkedPrograms }
{}
