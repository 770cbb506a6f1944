//! Worked logs: which rules each breaks. The functions here do nothing: each clause is computed.

ghost use Rattle.std.specs.Prelude.{◌≡◌, [], ◌∷◌};
ghost use Rattle.host_contract.specs.Broken as log;
ghost use Rattle.host_contract.specs.Rules as rule;
ghost use Rattle.host_contract.specs.Contract.{broken};
ghost use Rattle.host_contract.specs.Kept as kept;
ghost use Rattle.host_contract.specs.Kept.{padding};

/// Logs that break a rule of resets.
pub fn worked_resets()
    ensures alone { broken log.alone ≡ rule.Alone ∷ [] }
    ensures behind { broken log.behind ≡ rule.Alone ∷ [] }
    ensures idle { broken log.idle ≡ rule.Idle ∷ [] }
    ensures through { broken log.through ≡ rule.Through ∷ [] }
    ensures heard { broken log.heard ≡ rule.Through ∷ [] }
    ensures early { broken log.early ≡ rule.Early ∷ [] }
    ensures unanswered { broken log.unanswered ≡ rule.Through ∷ [] }
    ensures gone { broken log.gone ≡ rule.Through ∷ [] }
    ensures too_early { broken log.too_early ≡ rule.Early ∷ [] }
    ensures failed { broken log.failed ≡ rule.Failed ∷ [] }
    ensures reply_failed { broken log.reply_failed ≡ rule.Failed ∷ [] }
    ensures failed_end { broken log.failed_end ≡ rule.Failed ∷ [] }
    ensures stopped { broken log.stopped ≡ rule.Stopped ∷ [] }
    ensures remembers { broken log.remembers ≡ rule.Stopped ∷ [] }
    ensures forgets { broken log.forgets ≡ rule.Forgets ∷ [] }
    ensures dropped { broken log.dropped ≡ rule.Forgets ∷ [] }
    ensures own_reset { broken log.own_reset ≡ rule.Forgets ∷ [] }
    ensures contacted { broken log.contacted ≡ rule.Forgets ∷ [] }
    ensures not_yet { broken log.not_yet ≡ rule.Through ∷ [] }
    ensures crossed_failed { broken log.crossed_failed ≡ rule.Failed ∷ [] }
    ensures reply { broken log.reply ≡ rule.Reply ∷ [] }
    ensures owed { broken log.owed ≡ rule.Reply ∷ [] }
{}

/// Logs that break a rule of requests and CLS.
pub fn worked_requests()
    ensures once { broken log.once ≡ rule.Once ∷ [] }
    ensures once_more { broken log.once_more ≡ rule.Once ∷ [] }
    ensures unformed { broken log.unformed ≡ rule.Once ∷ [] }
    ensures both_even { broken log.both_even ≡ rule.Once ∷ [] }
    ensures both_odd { broken log.both_odd ≡ rule.Once ∷ [] }
    ensures no_link { broken log.no_link ≡ rule.Once ∷ rule.Links ∷ [] }
    ensures link { broken log.link ≡ rule.Link ∷ [] }
    ensures still_linked { broken log.still_linked ≡ rule.Link ∷ [] }
    ensures closes { broken log.closes ≡ rule.Closes ∷ [] }
    ensures unheard { broken log.unheard ≡ rule.Closes ∷ [] }
    ensures unreadable { broken log.unreadable ≡ rule.Closes ∷ [] }
    ensures unsendable { broken log.unsendable ≡ rule.Closes ∷ [] }
    ensures linkless { broken log.linkless ≡ rule.Closes ∷ [] }
    ensures other_sockets { broken log.other_sockets ≡ rule.Closes ∷ [] }
    ensures behind_time { broken log.behind_time ≡ rule.Closes ∷ [] }
    ensures twice { broken log.twice ≡ rule.Closes ∷ [] }
    ensures over { broken log.over ≡ rule.Over ∷ [] }
    ensures drained { broken log.drained ≡ rule.Drained ∷ [] }
    ensures willed { broken log.willed ≡ rule.Willed ∷ [] }
    ensures opens { broken log.opens ≡ rule.Opens ∷ [] }
    ensures unasked { broken log.unasked ≡ rule.Opens ∷ [] }
    ensures again { broken log.again ≡ rule.Opens ∷ [] }
    ensures late { broken log.late ≡ rule.Opens ∷ [] }
    ensures given_up { broken log.given_up ≡ rule.Opens ∷ [] }
    ensures ended { broken log.ended ≡ rule.Ended ∷ [] }
    ensures unwished { broken log.unwished ≡ rule.Ended ∷ [] }
    ensures reset_over { broken log.reset_over ≡ rule.Ended ∷ [] }
    ensures links { broken log.links ≡ rule.Links ∷ [] }
    ensures link_one { broken log.link_one ≡ rule.Links ∷ [] }
    ensures unlinked { broken log.unlinked ≡ rule.Links ∷ [] }
    ensures on_forty { broken log.on_forty ≡ rule.Links ∷ [] }
{}

/// Logs that break a rule of grants and data.
pub fn worked_streams()
    ensures sends { broken log.sends ≡ rule.Sends ∷ [] }
    ensures unknown { broken log.unknown ≡ rule.Sends ∷ [] }
    ensures after { broken log.after ≡ rule.Sends ∷ [] }
    ensures behind_cls { broken log.behind_cls ≡ rule.Sends ∷ [] }
    ensures elsewhere { broken log.elsewhere ≡ rule.Sends ∷ [] }
    ensures backwards { broken log.backwards ≡ rule.Sends ∷ [] }
    ensures size { broken log.size ≡ rule.Size ∷ [] }
    ensures sizeless { broken log.sizeless ≡ rule.Once ∷ rule.Size ∷ [] }
    ensures within { broken log.within ≡ rule.Within ∷ [] }
    ensures wide { broken log.wide ≡ rule.Within ∷ [] }
    ensures handed { broken log.handed ≡ rule.Handed ∷ [] }
    ensures repeated { broken log.repeated ≡ rule.Handed ∷ [] }
    ensures hasty { broken log.hasty ≡ rule.Handed ∷ [] }
    ensures misplaced { broken log.misplaced ≡ rule.Handed ∷ [] }
    ensures grants { broken log.grants ≡ rule.Grants ∷ [] }
    ensures doubled { broken log.doubled ≡ rule.Grants ∷ [] }
    ensures granted_late { broken log.granted_late ≡ rule.Grants ∷ [] }
    ensures all_elsewhere { broken log.all_elsewhere ≡ rule.Grants ∷ [] }
    ensures granted_unasked { broken log.granted_unasked ≡ rule.Grants ∷ [] }
    ensures granted_over { broken log.granted_over ≡ rule.Grants ∷ [] }
    ensures returns { broken log.returns ≡ rule.Returns ∷ [] }
    ensures counted { broken log.counted ≡ rule.Returns ∷ [] }
    ensures more { broken log.more ≡ rule.Returns ∷ [] }
    ensures returns_late { broken log.returns_late ≡ rule.Returns ∷ [] }
    ensures late_all { broken log.late_all ≡ rule.Returns ∷ [] }
    ensures takes { broken log.takes ≡ rule.Takes ∷ [] }
    ensures other { broken log.other ≡ rule.Takes ∷ [] }
    ensures ungranted { broken log.ungranted ≡ rule.Takes ∷ [] }
    ensures gap { broken log.gap ≡ rule.Takes ∷ [] }
    ensures beyond { broken log.beyond ≡ rule.Takes ∷ [] }
    ensures taken_back { broken log.taken_back ≡ rule.Takes ∷ [] }
    ensures second { broken log.second ≡ rule.Takes ∷ [] }
    ensures other_size { broken log.other_size ≡ rule.Takes ∷ [] }
    ensures all { broken log.all ≡ rule.All ∷ [] }
    ensures returned { broken log.returned ≡ rule.Returned ∷ [] }
    ensures used { broken log.used ≡ rule.Returned ∷ [] }
    ensures returned_twice { broken log.returned_twice ≡ rule.Returned ∷ [] }
    ensures returned_early { broken log.returned_early ≡ rule.Returned ∷ [] }
    ensures waits { broken log.waits ≡ rule.Waits ∷ [] }
{}

/// Logs that keep the contract: whole connections, as this repository's program and `examples/ncp.py` have them, and as a host that pads
/// does; and what other hosts may do otherwise.
pub fn worked_kept()
    ensures nothing { broken [] ≡ [] }
    ensures receiver { broken (kept.receiver []) ≡ [] }
    ensures sender { broken (kept.sender []) ≡ [] }
    ensures padded_receiver { broken (kept.receiver padding) ≡ [] }
    ensures padded_sender { broken (kept.sender padding) ≡ [] }
    ensures crossed { broken kept.crossed ≡ [] }
    ensures anew { broken kept.anew ≡ [] }
    ensures failing { broken kept.failing ≡ [] }
    ensures between { broken kept.between ≡ [] }
    ensures wished { broken kept.wished ≡ [] }
    ensures at_once { broken kept.at_once ≡ [] }
    ensures refused_link { broken kept.refused_link ≡ [] }
    ensures refused_first { broken kept.refused_first ≡ [] }
    ensures refused_one { broken kept.refused_one ≡ [] }
    ensures asked_twice { broken kept.asked_twice ≡ [] }
    ensures in_parts { broken kept.in_parts ≡ [] }
    ensures granted_twice { broken kept.granted_twice ≡ [] }
    ensures back_in_parts { broken kept.back_in_parts ≡ [] }
    ensures refused { broken kept.refused ≡ [] }
    ensures sized { broken kept.sized ≡ [] }
    ensures each { broken kept.each ≡ [] }
    ensures both { broken kept.both ≡ [] }
    ensures single_bits { broken kept.single_bits ≡ [] }
    ensures passed { broken kept.passed ≡ [] }
    ensures came_back { broken kept.came_back ≡ [] }
    ensures parts_back { broken kept.parts_back ≡ [] }
    ensures answered { broken kept.answered ≡ [] }
    ensures given_back { broken kept.given_back ≡ [] }
    ensures next { broken kept.next ≡ [] }
{}
