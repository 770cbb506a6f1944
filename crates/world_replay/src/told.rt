//! The line for A notice to the user of a host, with its end, put together in a buffer that is kept.

ghost use Rattle.std.specs.Prelude.{◌≡◌, ◌+◌, ◌≤◌, ◌++◌, ◌∷◌, [], codes, length};
ghost use Rattle.std.specs.Fmt.{decimal};
ghost use Rattle.interface.specs.Printed.{host_text};
ghost use Rattle.script.specs.Input.{ended_line};
ghost use Rattle.world_replay.specs.Printed.{notice_text, told_text, words};

use interface::HostAddr;
use net_sim::Told;
use replay::Line;
use sockets::Notice;

/// Prepends a word and a host, each with a space after it.
fn put_head(line: &mut Line, word: &[u8], host: HostAddr)
    requires { length word.now + length line.old ≤ 200 }
    ensures { line.new ≡ word.now ++ (codes " " ++ (host_text host ++ (codes " " ++ line.old))) }
{
    line.put_octet(b' ');
    line.put_host(host);
    line.put_octet(b' ');
    line.put_word(word);
}

/// Puts the line of a word, a host, and a peer.
#[tactic(auto, using(crate::proofs::ToldLines::three_words))]
fn put_peer(line: &mut Line, word: &[u8], host: HostAddr, peer: HostAddr)
    requires { length word.now ≤ 20 }
    ensures { line.new ≡ ended_line (words (word.now ∷ host_text host ∷ host_text peer ∷ [])) }
{
    line.begin();
    line.put_host(peer);
    put_head(line, word, host);
}

/// Puts the line of a word, a host, its socket, and the host and the socket at the other end.
#[tactic(auto, using(crate::proofs::ToldLines::five_words))]
fn put_end(line: &mut Line, word: &[u8], host: HostAddr, socket: u32, peer: HostAddr, foreign: u32)
    requires { length word.now ≤ 20 }
    ensures { line.new ≡ ended_line (words (word.now ∷ host_text host ∷ decimal socket ∷ host_text peer ∷ decimal foreign ∷ [])) }
{
    line.begin();
    line.put_number(foreign as u64);
    line.put_octet(b' ');
    line.put_host(peer);
    line.put_octet(b' ');
    line.put_number(socket as u64);
    put_head(line, word, host);
}

/// Puts the line of a word, a host, its socket, and how many bits it is about.
#[tactic(auto, using(crate::proofs::ToldLines::four_words))]
fn put_bits(line: &mut Line, word: &[u8], host: HostAddr, socket: u32, bits: usize)
    requires { length word.now ≤ 20 }
    ensures { line.new ≡ ended_line (words (word.now ∷ host_text host ∷ decimal socket ∷ decimal bits ∷ [])) }
{
    line.begin();
    line.put_number(bits as u64);
    line.put_octet(b' ');
    line.put_number(socket as u64);
    put_head(line, word, host);
}

/// Puts the line of what was returned to a host's socket.
#[tactic(auto, using(crate::proofs::ToldLines::five_words))]
fn put_returned(line: &mut Line, host: HostAddr, socket: u32, messages: u16, bits: u32)
    ensures { line.new ≡ ended_line (words (codes "returned" ∷ host_text host ∷ decimal socket ∷ decimal messages ∷ decimal bits ∷ [])) }
{
    line.begin();
    line.put_number(bits as u64);
    line.put_octet(b' ');
    line.put_number(messages as u64);
    line.put_octet(b' ');
    line.put_number(socket as u64);
    put_head(line, b"returned", host);
}

/// Puts the line of a host's socket that is interrupted.
#[tactic(auto, using(crate::proofs::ToldLines::three_words))]
fn put_interrupt(line: &mut Line, host: HostAddr, socket: u32)
    ensures { line.new ≡ ended_line (words (codes "interrupt" ∷ host_text host ∷ decimal socket ∷ [])) }
{
    line.begin();
    line.put_number(socket as u64);
    put_head(line, b"interrupt", host);
}

/// Puts the line of a word, a host, a peer, and an octet of the peer's.
#[tactic(auto, using(crate::proofs::ToldLines::four_words))]
fn put_peer_octet(line: &mut Line, word: &[u8], host: HostAddr, peer: HostAddr, octet: u8)
    requires { length word.now ≤ 20 }
    ensures { line.new ≡ ended_line (words (word.now ∷ host_text host ∷ host_text peer ∷ decimal octet ∷ [])) }
{
    line.begin();
    line.put_number(octet as u64);
    line.put_octet(b' ');
    line.put_host(peer);
    put_head(line, word, host);
}

/// Puts the line for A notice to the user of a host: a word for what it is, the host, and what it is about. Of bits
/// their number is given.
fn put_notice(line: &mut Line, host: HostAddr, notice: &Notice)
    ensures { line.new ≡ ended_line (notice_text host notice.now) }
{
    match notice {
        Notice::Ready { peer } => put_peer(line, b"ready", host, *peer),
        Notice::ContactFailed { peer } => put_peer(line, b"contactfailed", host, *peer),
        Notice::PairReset { peer } => put_peer(line, b"pairreset", host, *peer),
        Notice::Opened {
            socket,
            peer,
            foreign,
            ..
        } => put_end(line, b"opened", host, *socket, *peer, *foreign),
        Notice::Ended {
            socket,
            peer,
            foreign,
        } => put_end(line, b"ended", host, *socket, *peer, *foreign),
        Notice::Sent { socket, bits } => put_bits(line, b"sent", host, *socket, bits.len()),
        Notice::Arrived { socket, bits } => put_bits(line, b"arrived", host, *socket, bits.len()),
        Notice::Returned {
            socket,
            messages,
            bits,
        } => put_returned(line, host, *socket, *messages, *bits),
        Notice::Interrupt { socket } => put_interrupt(line, host, *socket),
        Notice::Echoed { peer, octet } => put_peer_octet(line, b"echoed", host, *peer, *octet),
        Notice::RemoteError { peer, code, .. } => put_peer_octet(
            line, b"error", host, *peer, *code,
        ),
    }
}

/// Puts the line for what is in a book of the notices to a user.
pub(crate) fn put_told(line: &mut Line, told: &Told)
    ensures { line.new ≡ ended_line (told_text told.now) }
{
    put_notice(line, told.host, &told.notice);
}
