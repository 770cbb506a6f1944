//! Worked examples of traces. The functions here do nothing: each clause is a row, computed over the definitions.

ghost use Rattle.std.specs.Prelude.{◌≡◌, ℕ, List, [], ◌∷◌, codes, true, false};
ghost use Rattle.std.specs.FinMap as map;
ghost use Rattle.interface.specs.declared.crossing.Answer.TheVariants as answer;
ghost use Rattle.interface.specs.declared.crossing.Crossing.TheVariants as crossing;
ghost use Rattle.interface.specs.declared.event.NetEvent.TheVariants as net;
ghost use Rattle.leader1822.specs.Boxes.{host_stopped, opening_boxes, plain_calls, with_queue};
ghost use Rattle.script.specs.declared.event.RawEvent.TheVariants as event;
ghost use Rattle.trace.specs.Changes.{IsGone, Rises, changed, changed_flows, changed_lists, changed_parts, members_of};
ghost use Rattle.trace.specs.Elements.{by_round, elements_of};
ghost use Rattle.trace.specs.Flows.{gone, told};
ghost use Rattle.trace.specs.Parts.{Down, Waiting, SamePart, is_named, parts_of};
ghost use Rattle.trace.specs.Traces.{IsStill, MayTell, plain_inside};
ghost use Rattle.trace.specs.Worked.{at_destination, first, flow, hosts, known, on_link, one_waits, second, short};
ghost use Rattle.trace.specs.Worked.{started, stop, takes, third, three_takings, with_down, with_flows};
ghost use Rattle.trace.specs.declared.flow_part.FlowState.TheVariants as state;
ghost use Rattle.trace.specs.declared.flow_part.Side.TheVariants as side;
ghost use Rattle.trace.specs.Laws.{WorkedLines, WorkedTexts};

/// The text of each part.
pub fn worked_texts()
    ensures { WorkedTexts }
{}

/// Which parts an event can change.
pub fn worked_parts()
    // a message that goes out, or is given up: what waits for its two hosts, in the order of the hosts, whether it is
    // refused or not
    ensures out { parts_of hosts (event.Out short) (crossing.Out short ∷ []) ≡ Waiting first ∷ Waiting third ∷ [] }
    ensures refused { parts_of hosts (event.Out short) [] ≡ Waiting first ∷ Waiting third ∷ [] }
    ensures given_up { parts_of hosts (event.Net (net.GiveUp flow)) [] ≡ Waiting first ∷ Waiting third ∷ [] }

    // hosts that are not there have no parts
    ensures stranger { parts_of (third ∷ []) (event.Out short) [] ≡ Waiting third ∷ [] }

    // a taking: the host, and the source of a message that came in
    ensures nothing_taken { parts_of hosts (event.Take third) [] ≡ Waiting third ∷ [] }
    ensures message_taken { parts_of hosts (event.Take third) (crossing.In short ∷ []) ≡ Waiting first ∷ Waiting third ∷ [] }
    ensures answer_taken { parts_of hosts (event.Take first) (crossing.Answer answer.Rfnm flow ∷ []) ≡ Waiting first ∷ [] }

    // a host that stops changes everything, one that starts only who is down, and any other event nothing
    ensures stop { parts_of hosts (event.Net (net.HostDown second)) (crossing.Down second ∷ []) ≡ Down ∷ Waiting first ∷ Waiting second ∷ Waiting third ∷ [] }
    ensures start { parts_of hosts (event.Net (net.HostUp second)) (crossing.Up second ∷ []) ≡ Down ∷ [] }
    ensures other { parts_of hosts (event.Net (net.Resend 1)) [] ≡ [] }
{}

/// Which parts are named, and what it means that one is the same.
pub fn worked_names()
    ensures named { (is_named Down (Waiting first ∷ Down ∷ []) ≡ true) × (is_named (Waiting second) (Down ∷ Waiting first ∷ Waiting second ∷ []) ≡ true) }

    // another host is not named, be it at the same IMP or of the same number
    ensures not_named { (is_named Down (Waiting first ∷ []) ≡ false) × (is_named (Waiting first) (Down ∷ Waiting second ∷ Waiting third ∷ []) ≡ false) × (is_named Down [] ≡ false) }

    // a part isn't the same where another host is down, or another message or answer waits for the host
    ensures other_down { SamePart Down (with_down []) (with_down (first ∷ [])) → ⊥ }
    ensures other_messages { SamePart (Waiting third) (opening_boxes hosts) (record (opening_boxes hosts) { messages = with_queue map.empty third (short ∷ []) }) → ⊥ }
    ensures other_answers { SamePart (Waiting first) (opening_boxes hosts) (record (opening_boxes hosts) { answers = with_queue map.empty first ((answer.Rfnm, flow) ∷ []) }) → ⊥ }
{}

/// Which members of an object have changed.
pub fn worked_changes()
    // each is compared with the one at its place, and not with the others
    ensures one { changed (codes "a" ∷ codes "b" ∷ codes "c" ∷ []) (codes "a" ∷ codes "x" ∷ codes "c" ∷ []) ≡ codes "x" ∷ [] }
    ensures exchanged { changed (codes "a" ∷ codes "b" ∷ []) (codes "b" ∷ codes "a" ∷ []) ≡ codes "b" ∷ codes "a" ∷ [] }

    // a text that only begins alike is another
    ensures longer { changed (codes "a" ∷ codes "b" ∷ []) (codes "ab" ∷ codes "b" ∷ []) ≡ codes "ab" ∷ [] }
    ensures more { changed (codes "a" ∷ []) (codes "a" ∷ codes "b" ∷ []) ≡ codes "b" ∷ [] }
{}

/// Which flows have changed.
pub fn worked_flows()
    // what is known of one, with its name
    ensures told { told known ≡ codes "\"source 0/1 0/2 5\":{\"state\":\"outstanding\",\"number\":7}" }
    ensures kept { told (record known { side = side.Kept; state = state.Never }) ≡ codes "\"kept 0/1 0/2 5\":{\"fate\":\"never\",\"number\":7}" }

    // one that is new, one that is other than before, and one that is there no more. Of two the other one is left out
    ensures new { changed_flows (on_link 4 ∷ []) (on_link 4 ∷ known ∷ []) ≡ told known ∷ [] }
    ensures other { changed_flows (on_link 4 ∷ known ∷ []) (on_link 4 ∷ record known { number = 8 } ∷ []) ≡ told (record known { number = 8 }) ∷ [] }
    ensures state { changed_flows (known ∷ on_link 6 ∷ []) (record known { state = state.Answered } ∷ on_link 6 ∷ []) ≡ told (record known { state = state.Answered }) ∷ [] }
    ensures gone { changed_flows (on_link 4 ∷ known ∷ []) (on_link 4 ∷ []) ≡ codes "\"source 0/1 0/2 5\":null" ∷ [] }
    ensures same { changed_flows (known ∷ on_link 6 ∷ []) (known ∷ on_link 6 ∷ []) ≡ [] }

    // those that are new or other come first, and then those that are there no more
    ensures order { changed_flows (on_link 4 ∷ []) (known ∷ on_link 6 ∷ []) ≡ told known ∷ told (on_link 6) ∷ gone (on_link 4) ∷ [] }

    // it is the flow and the side that make a name, so the same flow at the other side is another part
    ensures sides { changed_flows (known ∷ []) (at_destination ∷ []) ≡ told at_destination ∷ gone known ∷ [] }

    // list by list, each compared with the one at its place
    ensures lists { changed_lists ((known ∷ []) ∷ [] ∷ []) ([] ∷ (known ∷ []) ∷ []) ≡ gone known ∷ told known ∷ [] }

    // flows come after the parts that are always there, and only those that are there
    ensures all { members_of (with_flows ((known ∷ []) ∷ [] ∷ (on_link 6 ∷ []) ∷ [])) ≡ codes "a" ∷ told known ∷ told (on_link 6) ∷ [] }
    ensures after { changed_parts (with_flows ((known ∷ []) ∷ [])) (record (with_flows ([] ∷ [])) { fixed = codes "b" ∷ [] }) ≡ codes "b" ∷ gone known ∷ [] }

    // a null is of a flow that is there no more, and not of one of which something else is known
    ensures null { IsGone ((known ∷ []) ∷ []) ([] ∷ []) (gone known) }
    ensures no_null { IsGone ((known ∷ []) ∷ []) ((record known { number = 8 } ∷ []) ∷ []) (gone known) → ⊥ }

    // flows rise, or a line doesn't say that they were exchanged, or that one of two of a name went
    ensures rise { Rises (on_link 4 ∷ known ∷ on_link 6 ∷ []) }
    ensures fall { (Rises (known ∷ on_link 4 ∷ []) → ⊥) × (changed_flows (on_link 4 ∷ known ∷ []) (known ∷ on_link 4 ∷ []) ≡ []) }
    ensures twice { (Rises (known ∷ known ∷ []) → ⊥) × (changed_flows (known ∷ known ∷ []) (known ∷ []) ≡ []) }
{}

/// Lines of a trace.
pub fn worked_lines()
    ensures { WorkedLines }
{}

/// The elementary events of a calm.
pub fn worked_calms()
    // where nothing waits there are none
    ensures quiet { elements_of (opening_boxes (first ∷ [])) (event.Calm 2) ≡ [] }

    // the message is taken in the first round, when its source has had its turn, and its answer in the second
    ensures message { elements_of one_waits (event.Calm 2) ≡ record { round = 1; event = event.Take third } ∷ record { round = 2; event = event.Take first } ∷ [] }
{}

/// The rounds of a calm, and still ones.
pub fn worked_rounds()
    ensures no_rounds { by_round [] ≡ [] }
    ensures one_round { by_round (stop ∷ []) ≡ (stop ∷ []) ∷ [] }

    // elementary events of one round are together, and those of two rounds apart; a round without any is not there
    ensures rounds { by_round three_takings ≡ (takes 1 first ∷ takes 1 third ∷ []) ∷ (takes 3 first ∷ []) ∷ [] }

    // nothing is other than it was, be it that something changed and changed back
    ensures still { IsStill plain_calls plain_inside (with_down (first ∷ [])) (with_down (first ∷ [])) }

    // a round that changes a part is not still, nor is one in which something crosses
    ensures changes { IsStill plain_calls plain_inside (with_down []) (with_down (first ∷ [])) → ⊥ }
    ensures crosses { IsStill plain_calls plain_inside (opening_boxes hosts) started → ⊥ }
{}

/// What is known where a write failed: the carrier had processed the elementary event.
pub fn worked_failures()
    // the host that was to stop has stopped
    ensures processed { MayTell plain_calls (opening_boxes hosts) stop (host_stopped (opening_boxes hosts) second) [] }

    // nothing happened, or another event
    ensures nothing { MayTell plain_calls (opening_boxes hosts) stop (opening_boxes hosts) [] → ⊥ }
    ensures another { MayTell plain_calls (opening_boxes hosts) stop (host_stopped (opening_boxes hosts) first) [] → ⊥ }

    // its line is not among those that are known
    ensures no_line { (line : List ℕ) → MayTell plain_calls (opening_boxes hosts) stop (host_stopped (opening_boxes hosts) second) (line ∷ []) → ⊥ }
{}
