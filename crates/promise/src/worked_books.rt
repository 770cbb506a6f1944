//! Worked examples of what crosses, and of two lives of one connection. The functions here do nothing: each clause is a
//! row, computed over the definitions.

ghost use Rattle.std.specs.Prelude.{◌≡◌, true, false, [], ◌∷◌};
ghost use Rattle.interface.specs.Mailboxes.{Empty, Needs, Taken, Waiting, touched};
ghost use Rattle.interface.specs.Messages.{SafeMessages, TakenOnce, taken_in, went_out};
ghost use Rattle.interface.specs.declared.crossing.Answer.TheVariants as answer;
ghost use Rattle.interface.specs.declared.crossing.Crossing.TheVariants as crossing;
ghost use Rattle.promise.specs.Arrived.{ArrivedBook};
ghost use Rattle.promise.specs.Fates.{IsBeside};
ghost use Rattle.promise.specs.Safe.{IsGranted};
ghost use Rattle.promise.specs.Worked.{closed, first, giver, granter, message, one_bit, opened, second, str, taker};
ghost use Rattle.promise.specs.declared.life.Fate.TheVariants as fate;

/// What a crossing needs of the log below it: of hosts only its own, and its flow's box as it has to be.
pub fn worked_needs()
    ensures out { Needs (second ∷ []) (crossing.Out one_bit) [] }
    ensures taken { Needs (first ∷ []) (crossing.In one_bit) (crossing.Out one_bit ∷ []) }
    ensures dead { Needs (second ∷ []) (crossing.Answer answer.Dead one_bit.flow) (crossing.Out one_bit ∷ []) }
    ensures down { Needs (first ∷ []) (crossing.Down first) (crossing.Down second ∷ crossing.Up first ∷ crossing.Down first ∷ []) }
    ensures up { Needs (first ∷ []) (crossing.Up first) (crossing.Up second ∷ crossing.Down first ∷ []) }
{}

/// What each crossing makes of a box: a host that comes up empties those of which it is the source.
pub fn worked_touched()
    ensures out { touched 5 one_bit.flow (crossing.Out one_bit) Empty ≡ Waiting 5 one_bit.text }
    ensures taken { touched 5 one_bit.flow (crossing.In one_bit) (Waiting 3 one_bit.text) ≡ Taken 3 one_bit.text }
    ensures rfnm { touched 5 one_bit.flow (crossing.Answer answer.Rfnm one_bit.flow) (Taken 3 one_bit.text) ≡ Empty }
    ensures up { touched 5 one_bit.flow (crossing.Up second) (Waiting 3 one_bit.text) ≡ Empty }
    ensures destination { touched 5 one_bit.flow (crossing.Up first) (Waiting 3 one_bit.text) ≡ Waiting 3 one_bit.text }
{}

/// A flow's messages, among those of others.
pub fn worked_messages()
    ensures taken { taken_in one_bit.flow (crossing.In one_bit ∷ crossing.In str ∷ []) ≡ one_bit.text ∷ [] }
    ensures out { went_out one_bit.flow (crossing.Out str ∷ crossing.Out one_bit ∷ []) ≡ true }
    ensures once { TakenOnce one_bit.flow (crossing.In one_bit ∷ crossing.Out one_bit ∷ []) }

    // RFNM of a message that never went out, and one that is taken
    ensures unsent { SafeMessages (crossing.Answer answer.Rfnm one_bit.flow ∷ []) → ⊥ }
    ensures early { SafeMessages (crossing.In one_bit ∷ []) → ⊥ }
{}

/// What a life granted, less what was returned.
pub fn worked_granted()
    ensures all { IsGranted granter 5 6 }
    ensures messages { IsGranted granter 6 6 → ⊥ }
    ensures bits { IsGranted granter 5 7 → ⊥ }
{}

/// What has arrived of what is sent, and what is beside a life in another list.
pub fn worked_arrivals()
    // RFNM of data means that a life has them
    ensures stray { ArrivedBook [] (crossing.Answer answer.Rfnm (message second first 1 []).flow ∷ []) [] [] → ⊥ }

    // a life whose partner has closed has the bits that this one sent
    ensures bits { ArrivedBook [] closed (taker ∷ record giver { bits = [] } ∷ []) (fate.Open ∷ fate.Open ∷ []) → ⊥ }

    // at the same place
    ensures beside { IsBeside giver fate.Closed (taker ∷ giver ∷ []) (fate.Open ∷ fate.Closed ∷ []) }
    ensures place { IsBeside giver fate.Open (taker ∷ giver ∷ []) (fate.Open ∷ fate.Closed ∷ []) → ⊥ }
{}
