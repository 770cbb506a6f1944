//! A line that is printed, put together from its end to its beginning.

ghost use Rattle.std.specs.Prelude.{◌≡◌, ◌+◌, ◌≤◌, ◌++◌, ◌∷◌, [], codes, drop, length};
ghost use Rattle.std.specs.Fmt.{decimal};
ghost use Rattle.interface.specs.Printed.{answer_text, crossing_text, flow_text, host_text};
ghost use Rattle.interface.specs.declared.crossing.Crossing.TheVariants as crossing;
ghost use Rattle.script.specs.Input.{ended_line};

use interface::{Answer, Crossing, Flow, HostAddr, HostMessage};
use itoa::write_digits;
use std::marker::Model;

/// How many octets a line has room for, with its end.
const ROOM: usize = 256;

/// A line with its end, put together from its end to its beginning in a buffer of its own, so that it is printed by one call. The
/// buffer serves one line after the other. It is seen as its octets, and has room for 256 of them.
#[derive(Drop)]
pub struct Line {
    octets: [u8; ROOM],
    start: usize,
}

impl Model for Line {
    ghost use Rattle.std.specs.Prelude.{ℕ, ◌≤◌, List, drop};

    ghost Value = { List ℕ };

    ghost view = { λ l. drop l.start l.octets };

    ghost invariant = { λ l. l.start ≤ 256 };
}

/// Puts octets before a place of a buffer, and returns where they begin.
fn put_before(octets: &mut [u8], start: usize, word: &[u8]) -> usize
    requires { (length word.now ≤ start) × (start ≤ length octets.old) }
    ensures place { result + length word.now ≡ start }
    ensures written { drop result octets.new ≡ word.now ++ drop start octets.old }
{
    let at = start - word.len();
    octets[at..start].copy_from_slice(word);
    at
}

/// Puts a number before a place of a buffer, in decimal digits, and returns where they begin.
fn put_digits(octets: &mut [u8], start: usize, number: u64) -> usize
    requires { (20 ≤ start) × (start ≤ length octets.old) }
    ensures place { (result ≤ start) × (start ≤ result + 20) }
    ensures written { drop result octets.new ≡ decimal number ++ drop start octets.old }
{
    write_digits(number, octets, start)
}

impl Line {
    /// Returns the end of a line, with nothing before it yet.
    pub fn new() -> Line
        ensures { result ≡ 10 ∷ [] }
    {
        let mut octets = [0; ROOM];
        octets[ROOM - 1] = b'\n';
        Line {
            octets,
            start: ROOM - 1,
        }
    }

    /// Forgets what was put together.
    pub(crate) fn clear(&mut self)
        ensures { self.new ≡ [] }
    {
        self.start = ROOM;
    }

    /// Begins the next line: its end, with nothing before it yet.
    pub fn begin(&mut self)
        ensures { self.new ≡ 10 ∷ [] }
    {
        self.clear();
        self.put_octet(b'\n');
    }

    /// Returns its octets.
    pub fn as_octets(&self) -> &[u8]
        ensures { result.now ≡ self.now }
    {
        &self.octets[self.start..]
    }

    /// Prepends an octet.
    #[inline]
    pub fn put_octet(&mut self, octet: u8)
        requires { length self.old ≤ 255 }
        ensures text { self.new ≡ octet ∷ self.old }
        ensures room { length self.new ≡ length self.old + 1 }
    {
        let at = self.start - 1;
        self.octets[at] = octet;
        self.start = at;
    }

    /// Prepends a word.
    pub fn put_word(&mut self, word: &[u8])
        requires { length word.now + length self.old ≤ 256 }
        ensures text { self.new ≡ word.now ++ self.old }
        ensures room { length self.new ≡ length word.now + length self.old }
    {
        self.start = put_before(&mut self.octets, self.start, word);
    }

    /// Prepends a number, in decimal digits.
    pub fn put_number(&mut self, number: u64)
        requires { length self.old ≤ 236 }
        ensures text { self.new ≡ decimal number ++ self.old }
        ensures room { length self.new ≤ length self.old + 20 }
    {
        self.start = put_digits(&mut self.octets, self.start, number);
    }

    /// Prepends a number that is mostly less than 10.
    #[inline]
    fn put_small(&mut self, number: u8)
        requires { length self.old ≤ 236 }
        ensures text { self.new ≡ decimal number ++ self.old }
        ensures room { length self.new ≤ length self.old + 20 }
    {
        if number < 10 {
            self.put_octet(b'0' + number);
        } else {
            self.put_number(number as u64);
        }
    }

    /// Prepends a host: its number, a slash, and its IMP's number.
    #[tactic(auto, using(crate::proofs::Lines::host_before))]
    pub fn put_host(&mut self, host: HostAddr)
        requires { length self.old ≤ 215 }
        ensures text { self.new ≡ host_text host ++ self.old }
        ensures room { length self.new ≤ length self.old + 41 }
    {
        self.put_small(host.imp());
        self.put_octet(b'/');
        self.put_small(host.host());
    }

    /// Prepends a flow: its source, its destination and its link, with spaces between.
    #[tactic(auto, using(crate::proofs::Lines::flow_before))]
    pub fn put_flow(&mut self, flow: &Flow)
        requires { length self.old ≤ 140 }
        ensures text { self.new ≡ flow_text flow.now ++ self.old }
        ensures room { length self.new ≤ length self.old + 104 }
    {
        self.put_small(flow.link.0);
        self.put_octet(b' ');
        self.put_host(flow.destination);
        self.put_octet(b' ');
        self.put_host(flow.source);
    }

    /// Prepends a message that crosses, after this word: its flow and how many bits its text has.
    #[tactic(auto, using(crate::proofs::Lines::message_before))]
    fn put_message(&mut self, word: &[u8], message: &HostMessage)
        requires { (length word.now ≤ 4) × (length self.old ≤ 2) }
        ensures { self.new ≡ (word.now ++ (flow_text message.now.flow ++ (codes " " ++ decimal (length message.now.text)))) ++ self.old }
    {
        self.put_number(message.text.bits().len() as u64);
        self.put_octet(b' ');
        self.put_flow(&message.flow);
        self.put_word(word);
    }

    /// Prepends an answer.
    #[tactic(auto, using(crate::proofs::Lines::answer_before))]
    fn put_answer(&mut self, kind: Answer, flow: &Flow)
        requires { length self.old ≤ 2 }
        ensures { self.new ≡ crossing_text (crossing.Answer kind flow.now) ++ self.old }
    {
        self.put_flow(flow);
        self.put_word(answer_head(kind));
    }

    /// Prepends a host that goes down or comes up, after this word.
    #[tactic(auto, using(crate::proofs::Lines::one_before))]
    fn put_change(&mut self, word: &[u8], host: HostAddr)
        requires { (length word.now ≤ 5) × (length self.old ≤ 2) }
        ensures { self.new ≡ (word.now ++ host_text host) ++ self.old }
    {
        self.put_host(host);
        self.put_word(word);
    }

    /// Prepends a crossing. Of a text only the number of bits is printed.
    pub(crate) fn put_crossing(&mut self, crossing: &Crossing)
        requires { length self.old ≤ 2 }
        ensures { self.new ≡ crossing_text crossing.now ++ self.old }
    {
        match crossing {
            Crossing::Out(message) => self.put_message(b"out ", message),
            Crossing::In(message) => self.put_message(b"in ", message),
            Crossing::Answer(kind, flow) => self.put_answer(*kind, flow),
            Crossing::Down(host) => self.put_change(b"down ", *host),
            Crossing::Up(host) => self.put_change(b"up ", *host),
        }
    }
}

/// Returns the words for what became of a message, with a space after them.
fn answer_head(kind: Answer) -> &'static [u8]
    ensures words { result.now ≡ codes "answer " ++ (answer_text kind ++ codes " ") }
    ensures short { length result.now ≤ 18 }
{
    match kind {
        Answer::Rfnm => b"answer rfnm ",
        Answer::Incomplete | Answer::NotTaken => b"answer incomplete ",
        Answer::Dead => b"answer dead ",
    }
}
