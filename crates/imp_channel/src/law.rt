//! What a line promises, as laws over the definitions that the calls of [`crate::Line`] cite. The functions
//! here do nothing: each clause is a law.

ghost use Rattle.std.specs.Prelude.{◌≡◌, ℕ, ◌+◌, ◌<◌, List, [], ◌∷◌, ◌++◌, All, Some, Ok, IsPermutation};
ghost use Rattle.packetiser.specs.PacketFields.{PacketFields};
ghost use Rattle.packetiser.specs.Rejoining.{AreAmong};
ghost use Rattle.imp_channel.specs.Format.{IsFrame, read_of, spelling};
ghost use Rattle.imp_channel.specs.Holding.{packets_in, carried_by, carried_by_all};
ghost use Rattle.imp_channel.specs.Line.{End, opening_end, submitted, resent, acknowledgement, routes_frame, answer_to, state_after};
ghost use Rattle.imp_channel.specs.Schedule.{Event, InOrder, run, opening_sides, one_packet};
ghost use Rattle.imp_channel.specs.declared.frame.Frame.{Frame};
ghost use Rattle.imp_channel.specs.declared.line.Received.TheVariants as received;
ghost use Rattle.imp_channel.specs.Laws.{WorkedFrames, NotInOrder};

/// Each frame has one spelling, and only spellings are read.
pub fn spellings()
    // what is written is read again
    ensures again { (f : Frame) → IsFrame f → read_of (spelling f) ≡ Ok f }

    // what is read keeps the format, and was its spelling: nothing is after its end
    ensures read { (octets : List ℕ) (f : Frame) → All (λ n. n < 256) octets → read_of octets ≡ Ok f → IsFrame f × (octets ≡ spelling f) }

    // two frames are spelled differently
    ensures one { (f g : Frame) → IsFrame f → IsFrame g → spelling f ≡ spelling g → f ≡ g }
{}

/// Frames octet by octet, and octets that are none.
#[tactic(auto, unfolding(crate::specs::Format::bits_of, packetiser::specs::Format::is_bad_length, packetiser::specs::Format::is_not_canonical, packetiser::specs::Format::is_short, crate::specs::Format::octet_of))]
pub fn worked_frames()
    ensures { WorkedFrames }
{}

/// Packets come out in order and once.
///
/// Both ends begin just reset, and each acts as often and in whatever order the schedule says: it puts
/// packets in, sends the frames of its busy channels again, acknowledges, sends its distances, and takes
/// frames that the other end wrote. The frames taken never go back in the list of those written: one may be
/// skipped, as lost, and one may be taken again before a later one. Then on every channel, in both
/// directions, the packets that `receive` answered as `Fresh` are the first of those that were handed to
/// `submit`, in their order and each once, and every packet whose channel became free was given.
pub fn in_order()
    ensures rightward { (events : List Event) (c : ℕ) → InOrder c (run events opening_sides).left (run events opening_sides).right }
    ensures leftward { (events : List Event) (c : ℕ) → InOrder c (run events opening_sides).right (run events opening_sides).left }
{}

/// An example of the law of the line: a packet is put in, its frame is taken twice, and the acknowledgement
/// is taken. The packet is given once, and its channel is free.
pub fn one_packet()
    ensures put { (packet : PacketFields) → (run (one_packet packet) opening_sides).left.put 0 ≡ packet ∷ [] }
    ensures given { (packet : PacketFields) → (run (one_packet packet) opening_sides).right.given 0 ≡ packet ∷ [] }
    ensures freed { (packet : PacketFields) → (run (one_packet packet) opening_sides).left.freed 0 ≡ packet ∷ [] }
    ensures reached { (packet : PacketFields) → (run (one_packet packet) opening_sides).right.reached ≡ 0 }
{}

/// What the law of the line forbids: each pair of sides has one thing wrong.
pub fn not_in_order()
    ensures { NotInOrder }
{}

/// What an end holds, sends and gives are packets that were put in.
pub fn holding()
    // an end that was just reset holds no packet
    ensures opening { packets_in opening_end.sending ≡ [] }

    // after a packet was put in, the end holds what it held and that packet, and its frame carries that packet
    ensures submitted { (e end : End) (packet : PacketFields) (frame : Frame) → submitted e packet ≡ Some (end, frame) → IsPermutation (packets_in end.sending) (packet ∷ packets_in e.sending) }
    ensures among { (e end : End) (packet : PacketFields) (frame : Frame) → submitted e packet ≡ Some (end, frame) → AreAmong (packets_in end.sending) (packets_in e.sending ++ packet ∷ []) }
    ensures sent { (e end : End) (packet : PacketFields) (frame : Frame) → submitted e packet ≡ Some (end, frame) → carried_by frame.content ≡ packet ∷ [] }

    // frames sent again carry the packets that the end holds, each once; other frames carry none
    ensures resent { (e : End) → carried_by_all (resent e) ≡ packets_in e.sending }
    ensures acknowledgement { (e : End) → carried_by (acknowledgement e).content ≡ [] }
    ensures routes { (e : End) (distances : List ℕ) → carried_by (routes_frame e distances).content ≡ [] }

    // after a frame was taken the end holds nothing new, and a packet that is given is the frame's
    ensures received { (e : End) (frame : Frame) → AreAmong (packets_in (state_after e frame).sending) (packets_in e.sending) }
    ensures fresh { (e : End) (frame : Frame) (packet : PacketFields) → answer_to e frame ≡ Ok (received.Fresh packet) → carried_by frame.content ≡ packet ∷ [] }
{}
