//! Worked examples of what RFNM of data means, and of what an open life has. The functions here do nothing: each
//! clause is a row, computed over the definitions.

ghost use Rattle.std.specs.Prelude.{[], ◌∷◌};
ghost use Rattle.promise.specs.Arrived.{ArrivedBook, HasArrived};
ghost use Rattle.promise.specs.declared.life.Fate.TheVariants as fate;
ghost use Rattle.world_keeps_lives.specs.WorkedFormed.{gave, sent_log, took};
ghost use Rattle.world_keeps_streams.specs.WorkedArrived.{answered_log, closed_log, closed_receiver, closed_sender, coming_log, on_two, sent_more, took_nothing};

/// RFNM of a message with eight bits.
pub fn worked_rfnm()
    ensures arrived { HasArrived answered_log sent_log (took ∷ gave ∷ []) (fate.Open ∷ fate.Open ∷ []) on_two }

    // an open life that doesn't count the message, and one that a user of its host has closed
    ensures lost { HasArrived answered_log sent_log (took_nothing ∷ gave ∷ []) (fate.Open ∷ fate.Open ∷ []) on_two → ⊥ }
    ensures closing { HasArrived answered_log sent_log (took_nothing ∷ gave ∷ []) (fate.Closing ∷ fate.Open ∷ []) on_two }

    // no life sent it
    ensures stray { HasArrived answered_log sent_log (took ∷ []) (fate.Open ∷ []) on_two → ⊥ }
{}

/// Open lives: what came in, and a partner that has closed.
pub fn worked_open()
    ensures closed { ArrivedBook [] closed_log (closed_receiver ∷ closed_sender ∷ []) (fate.Open ∷ fate.Open ∷ []) }

    // the partner had sent a message that didn't come
    ensures lost { ArrivedBook [] closed_log (closed_receiver ∷ sent_more ∷ []) (fate.Open ∷ fate.Open ∷ []) → ⊥ }

    // before its CLS has come, one may be on its way
    ensures coming { ArrivedBook [] coming_log (closed_receiver ∷ sent_more ∷ []) (fate.Open ∷ fate.Open ∷ []) }

    // a message came in that an open life doesn't count
    ensures uncounted { ArrivedBook [] sent_log (took_nothing ∷ gave ∷ []) (fate.Open ∷ fate.Open ∷ []) → ⊥ }
{}
