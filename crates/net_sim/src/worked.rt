//! Worked examples of books and worlds. The functions here do nothing: each clause is a row, computed over the definitions.

ghost use Rattle.std.specs.Prelude.{◌≡◌, [], ◌∷◌, ◌++◌, map};
ghost use Rattle.interface.specs.declared.crossing.Crossing.TheVariants as crossing;
ghost use Rattle.net_sim.specs.Book.{book_told, asked, crossed};
ghost use Rattle.net_sim.specs.Handed.{AreUnhanded};
ghost use Rattle.promise.specs.Fates.{AreFated};
ghost use Rattle.promise.specs.declared.life.Fate.TheVariants as fate;
ghost use Rattle.promise.specs.Safe.{SafeBook};
ghost use Rattle.net_sim.specs.Worked.{eight, eight_zeros, four, crossings, message, used, ended, receiver, sender, taker, giver, elsewhere, asker, stranger, over};
ghost use Rattle.net_sim.specs.Worked.{stamp_of};
ghost use Rattle.sockets.specs.Worked.{first, second};
ghost use Rattle.host_pairs.specs.declared.notice.Notice.TheVariants as notice;
ghost use Rattle.sockets.specs.declared.request.Request.TheVariants as request;
ghost use Rattle.net_sim.specs.Laws.Rows.{WorkedLives, WorkedRequests, WorkedWorlds};

/// What becomes of a life.
pub fn worked_lives()
    ensures { WorkedLives }
{}

/// What else a book has, and what was handed over.
pub fn worked_books()
    // one list of bits for each life, in their order
    ensures handed { used.handed ≡ eight ∷ [] ∷ [] }
    ensures handed_more { (asked second (request.Send 33 four) used).handed ≡ (eight ++ four) ∷ [] ∷ [] }
    ensures handed_anew { (asked second (request.Send 33 four) (book_told second (notice.Opened 33 first 16 7 8) (book_told second (notice.Ended 33 first 16) used))).handed ≡ eight ∷ [] ∷ four ∷ [] }

    // there is one list for each life, in which nothing is for a receiving one
    ensures unhanded { AreUnhanded (giver ∷ taker ∷ []) (eight ∷ [] ∷ []) }
    ensures to_a_receiver { AreUnhanded (giver ∷ taker ∷ []) (eight ∷ eight ∷ []) → ⊥ }
    ensures no_list { AreUnhanded (giver ∷ taker ∷ []) (eight ∷ []) → ⊥ }
    ensures no_life { AreUnhanded [] ([] ∷ []) → ⊥ }

    // bits that are handed over aren't sent yet
    ensures unsent { (asked second (request.Send 33 four) used).book.lives ≡ giver ∷ taker ∷ [] }

    // a notice is after the crossing that it comes of, in its order
    ensures notices { map stamp_of used.book.notices ≡ (second, 6) ∷ (first, 6) ∷ (second, 6) ∷ (first, 6) ∷ (first, 6) ∷ [] }
    ensures placed { map (λ n. n.place) (book_told first (notice.Ready second) (crossed (crossing.Up first) used)).book.notices ≡ 6 ∷ 6 ∷ 6 ∷ 6 ∷ 6 ∷ 7 ∷ [] }

    // a contact is in it with its host, its peer and its place, and no other request does
    ensures contact { (asked second (request.Contact first) used).book.contacts ≡ record { host = second; place = 6; peer = first } ∷ [] }
    ensures others { (asked second (request.Echo first 65) used).book.contacts ≡ [] }

    // the crossings are in it, the newest first
    ensures crossings { used.book.crossings ≡ crossings }
{}

/// How far lives are, and how they end.
pub fn worked_fates()
    // each is open at first, and one whose user closes its end is closing
    ensures open { used.fates ≡ fate.Open ∷ fate.Open ∷ [] }
    ensures closing { (asked first (request.Close 16) used).fates ≡ fate.Open ∷ fate.Closing ∷ [] }
    ensures another_host { (asked second (request.Close 16) used).fates ≡ fate.Open ∷ fate.Open ∷ [] }

    // over by CLS it has ended where nobody at its host had closed it, and else it is closed
    ensures ended { ended.fates ≡ fate.Open ∷ fate.Ended ∷ [] }
    ensures closed { (book_told first (notice.Ended 16 second 33) (asked first (request.Close 16) used)).fates ≡ fate.Open ∷ fate.Closed ∷ [] }
    ensures another_end { (book_told first (notice.Ended 16 second 35) used).fates ≡ fate.Open ∷ fate.Open ∷ [] }

    // an orderly close: the sender's user closes, and the receiver's doesn't
    ensures orderly { (book_told second (notice.Ended 33 first 16) (book_told first (notice.Ended 16 second 33) (asked second (request.Close 33) used))).fates ≡ fate.Closed ∷ fate.Ended ∷ [] }

    // its pair is reset, or its host stops, also where its user had closed it
    ensures reset { (book_told second (notice.PairReset first) used).fates ≡ fate.Reset ∷ fate.Open ∷ [] }
    ensures closed_reset { (book_told first (notice.PairReset second) (asked first (request.Close 16) used)).fates ≡ fate.Open ∷ fate.Reset ∷ [] }
    ensures stopped { (crossed (crossing.Down first) used).fates ≡ fate.Open ∷ fate.Stopped ∷ [] }
    ensures up { (crossed (crossing.Up first) used).fates ≡ fate.Open ∷ fate.Open ∷ [] }

    // nothing changes it once it is over
    ensures late { (asked first (request.Close 16) ended).fates ≡ fate.Open ∷ fate.Ended ∷ [] }
    ensures late_stop { (crossed (crossing.Down first) (book_told first (notice.PairReset second) used)).fates ≡ fate.Open ∷ fate.Reset ∷ [] }
    ensures anew { (asked first (request.Close 16) (book_told first (notice.Opened 16 second 33 7 8) ended)).fates ≡ fate.Open ∷ fate.Ended ∷ fate.Closing ∷ [] }

    // there is one for each life, and it says whether the life is over
    ensures fated { AreFated (giver ∷ over taker ∷ []) (fate.Closing ∷ fate.Ended ∷ []) }
    ensures unfated { AreFated (giver ∷ over taker ∷ []) (fate.Open ∷ fate.Open ∷ []) → ⊥ }
    ensures missing { AreFated (giver ∷ over taker ∷ []) (fate.Open ∷ []) → ⊥ }
{}

/// Which request a life is about.
pub fn worked_requests()
    ensures { WorkedRequests }
{}

/// The book of a connection on which a message was taken is safe: so the safe book can be.
pub fn safe_books()
    ensures { SafeBook crossings (giver ∷ taker ∷ []) (eight ∷ [] ∷ []) }
{}

/// Which books aren't safe: each has one thing wrong with the book of a connection on which a message was taken.
pub fn unsafe_books()
    // a message is taken twice
    ensures twice { SafeBook (crossing.In (message first second 0) ∷ crossings) [] [] → ⊥ }

    // more is taken, or sent, than was granted less what was returned
    ensures granted_bits { SafeBook crossings (giver ∷ record taker { granted = record { messages = 2; bits = 11 } } ∷ []) (eight ∷ [] ∷ []) → ⊥ }
    ensures taken_messages { SafeBook crossings (giver ∷ record taker { messages = 3 } ∷ []) (eight ∷ [] ∷ []) → ⊥ }
    ensures granted_messages { SafeBook crossings (giver ∷ record taker { granted = record { messages = 1; bits = 100 } } ∷ []) (eight ∷ [] ∷ []) → ⊥ }
    ensures sent_bits { SafeBook crossings (record giver { bits = eight ++ eight } ∷ record taker { granted = record { messages = 2; bits = 19 } } ∷ []) ((eight ++ eight) ∷ [] ∷ []) → ⊥ }
    ensures sent_messages { SafeBook crossings (record giver { messages = 2 } ∷ taker ∷ []) (eight ∷ [] ∷ []) → ⊥ }

    // one request opens two ends
    ensures own_twice { SafeBook (crossing.Out (message second first 0) ∷ crossings) (receiver ∷ record receiver { partner_stamp = 7 } ∷ []) ([] ∷ [] ∷ []) → ⊥ }
    ensures partner_twice { SafeBook crossings (receiver ∷ record receiver { own_stamp = 7 } ∷ []) ([] ∷ [] ∷ []) → ⊥ }

    // a life took a request that nobody said to it, or one of another host's end
    ensures unanswered { SafeBook crossings (record giver { partner_stamp = 0 } ∷ []) (eight ∷ []) → ⊥ }
    ensures another_host { SafeBook elsewhere (asker ∷ stranger ∷ []) ([] ∷ [] ∷ []) → ⊥ }

    // a receiver has a partner that has another
    ensures one_way { SafeBook (crossing.Out (message first second 0) ∷ crossings) (record sender { partner_stamp = 7 } ∷ receiver ∷ []) ([] ∷ [] ∷ []) → ⊥ }

    // something is sent that wasn't handed over, or not in that order
    ensures unhanded { SafeBook crossings (giver ∷ taker ∷ []) (four ∷ [] ∷ []) → ⊥ }
    ensures too_few { SafeBook crossings (giver ∷ taker ∷ []) (eight ∷ []) → ⊥ }

    // a receiver takes what nobody sent
    ensures from_nobody { SafeBook crossings (taker ∷ []) ([] ∷ []) → ⊥ }
    ensures other_bits { SafeBook crossings (record giver { bits = four } ∷ taker ∷ []) (four ∷ [] ∷ []) → ⊥ }

    // nor as many other bits
    ensures other_taken { SafeBook crossings (record giver { bits = eight_zeros } ∷ taker ∷ []) (eight_zeros ∷ [] ∷ []) → ⊥ }
    ensures other_handed { SafeBook crossings (giver ∷ taker ∷ []) (eight_zeros ∷ [] ∷ []) → ⊥ }
{}

/// Books that aren't safe though each of their lives has ended: a safe book is about these too.
pub fn unsafe_ended_books()
    // of requests and partners
    ensures own_twice { SafeBook (crossing.Out (message second first 0) ∷ crossings) (over receiver ∷ over (record receiver { partner_stamp = 7 }) ∷ []) ([] ∷ [] ∷ []) → ⊥ }
    ensures partner_twice { SafeBook crossings (over receiver ∷ over (record receiver { own_stamp = 7 }) ∷ []) ([] ∷ [] ∷ []) → ⊥ }
    ensures unanswered { SafeBook crossings (over (record giver { partner_stamp = 0 }) ∷ []) (eight ∷ []) → ⊥ }
    ensures another_host { SafeBook elsewhere (over asker ∷ over stranger ∷ []) ([] ∷ [] ∷ []) → ⊥ }
    ensures one_way { SafeBook (crossing.Out (message first second 0) ∷ crossings) (over (record sender { partner_stamp = 7 }) ∷ over receiver ∷ []) ([] ∷ [] ∷ []) → ⊥ }

    // of what was handed over, sent and taken
    ensures unhanded { SafeBook crossings (over giver ∷ over taker ∷ []) (four ∷ [] ∷ []) → ⊥ }
    ensures from_nobody { SafeBook crossings (over taker ∷ []) ([] ∷ []) → ⊥ }

    // of what was granted
    ensures taken_messages { SafeBook crossings (over giver ∷ over (record taker { messages = 3 }) ∷ []) (eight ∷ [] ∷ []) → ⊥ }
    ensures sent_messages { SafeBook crossings (over (record giver { messages = 2 }) ∷ over taker ∷ []) (eight ∷ [] ∷ []) → ⊥ }
{}

/// Why an event is refused, and what it does.
pub fn worked_worlds()
    ensures { WorkedWorlds }
{}
