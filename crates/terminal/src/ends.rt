//! What both programs ask for on their two connections.

ghost use Rattle.std.specs.Prelude.{◌≡◌, ◌<◌, ℕ, true, [], ◌∷◌, length, Some, None, Ok, Err, IfOk, OnErr, MatchOption, MatchResult};
ghost use Rattle.terminal.specs.Ends as ends;

use bit_messages::Bits;
use sockets::{Notice, Request};
use std::alloc::{AllocError, Global};

/// The messages that are granted at first.
const FIRST_MESSAGES: u16 = 4;

/// The bits that are granted at first.
const FIRST_BITS: u32 = 4096;

/// Returns the first grant on a receive socket.
pub(crate) fn first_requests(alloc: Global, receive: u32) -> Result<Vec<Request>, AllocError>
    ensures { IfOk result (λ requests. requests.items ≡ ends.first_requests receive) }
{
    let mut requests = Vec::new(alloc);
    requests.push(Request::Grant {
        socket: receive,
        messages: FIRST_MESSAGES,
        bits: FIRST_BITS,
    })?;
    Ok(requests)
}

/// Returns one message and this many bits as arrived, again.
pub(crate) fn granted_again(receive: u32, bits: &Bits) -> Request
    ensures { result ≡ ends.granted_again receive bits.now }
{
    Request::Grant {
        socket: receive,
        messages: 1,
        bits: u32::try_from(bits.len()).unwrap_or(u32::MAX),
    }
}

/// Returns the bits of a notice that reports bits on this socket.
pub(crate) fn arrived_on(receive: u32, notice: &Notice) -> Option<&Bits>
    ensures { MatchOption result (ends.arrived_on receive notice.now ≡ None) (λ bits. ends.arrived_on receive notice.now ≡ Some bits.now) }
{
    match notice {
        Notice::Arrived { socket, bits } if *socket == receive => Some(bits),
        _ => None,
    }
}

/// Returns the socket of a connection that a notice reports the end of.
fn socket_ended(notice: &Notice) -> Option<u32>
    ensures { (receive send : ℕ) → MatchOption result (ends.closed_by receive send notice.now ≡ []) (λ socket. ends.closed_by receive send notice.now ≡ ends.closing receive send socket) }
{
    match notice {
        Notice::Ended { socket, .. } => Some(*socket),
        _ => None,
    }
}

/// Returns what a notice makes a program close: where one of its two connections has ended, the other.
pub(crate) fn closed_by(
    alloc: Global,
    receive: u32,
    send: u32,
    notice: &Notice,
) -> Result<Vec<Request>, AllocError>
    ensures requests { IfOk result (λ requests. requests.items ≡ ends.closed_by receive send notice.now) }
    ensures memory { OnErr result (0 < length (ends.closed_by receive send notice.now)) }
{
    let mut requests = Vec::new(alloc);
    let Some(ended) = socket_ended(notice) else {
        return Ok(requests);
    };
    if ended == receive {
        requests.push(Request::Close { socket: send })?;
    } else if ended == send {
        requests.push(Request::Close { socket: receive })?;
    }
    Ok(requests)
}

/// Ends a call of a program, which is spent where memory ran out.
pub(crate) fn ended<T: Drop>(done: Result<T, AllocError>, spent: &mut bool) -> Result<T, AllocError>
    ensures { MatchResult done (λ x. (result ≡ Ok x) × (spent.new ≡ spent.old)) (λ e. (result ≡ Err e) × (spent.new ≡ true)) }
{
    if done.is_err() {
        *spent = true;
    }
    done
}
