//! Why no opening of a connection has two partners.
//!
//! A connection is opened by two requests, one each way, and closed by two CLS; none of them carries a number, and the
//! same two sockets may be connected again and again. Two hosts are seen as far as one pair of their sockets goes:
//! what each says and hears of it, and the ends that it opens. All that is asked of the network and of resets is that a
//! host hears, in order, what its peer said since both were through a reset, and that no end of before was left then. So no
//! two ends have one request, and where the partner's request of an end is another's own, the reverse holds too.
//!
//! The law of resets (crate `reset_law`) gives this for texts. Each call of a host's program is tied to it in crate `host_keeps_pairing`.
//! There is no code: the laws are the contracts of functions that do nothing.
#![tactic(auto)]

pub mod law;
