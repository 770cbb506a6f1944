//! Why a receiving end of a connection takes what its one partner sent, within what it granted.
//!
//! Two hosts are seen as far as one link goes, one way, while they stay together: what the receiver asks for, grants, asks
//! back and takes, and what the sender sends and returns, connection after connection. ALL, GVB, RET and data name the link
//! only, and data overtake commands. So what is said of one connection could be taken by the next one on its link; here it is proved that it isn't.
//!
//! All that is asked is that each host hears in order what the other says on link 0, that a message waits until it is taken, and that
//! both know of which connection a request or a CLS is (crate `pairing_law`). There is no code: the laws are the contracts of functions that do nothing.
#![tactic(auto)]

pub mod law;
