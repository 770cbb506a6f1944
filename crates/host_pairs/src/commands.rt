//! What a command of the peer does to the connections of an opened pair (NIC 8246, the control commands).

ghost use Rattle.std.specs.Prelude.{◌≡◌, OnOk, ◌<◌, OnErr};
ghost use Rattle.host_pairs.specs.Said.{said};
ghost use Rattle.host_pairs.specs.Commands as commands;
ghost use Rattle.host_pairs.specs.Entries.{entry_at, opening_notices, sends_on};
ghost use Rattle.ncp_control.specs.declared.command.Command.TheVariants as command;
ghost use Rattle.host_pairs.specs.Desk.{listener_on, desk_told, settled, swept};
ghost use Rattle.std.specs.List.{list_any};

use crate::Notice;
use crate::desk::Desk;
use crate::ends::free_link;
use crate::entry::Entry;
use crate::found::{Found, receiver_on, sender_on};
use crate::listener::{listener_on, stop_listening};
use interface::HostAddr;
use ncp_control::{ByteSize, Command, ConnectionLink, ReceiveSocket, SendSocket};
use std::alloc::{AllocError, Global};

/// The code of an ERR about fields that are out of range or don't fit the present state (NIC 8246, ERR).
pub(crate) const ERRONEOUS: u8 = 3;

/// The code of an ERR about a CLS of two sockets that have no end here.
const NO_SOCKET: u8 = 4;

/// The code of an ERR about a link that no open end has.
pub(crate) const NOT_CONNECTED: u8 = 5;

// ---- requests

impl Desk {
    /// Answers a request of the peer that nobody waits for: it is refused by a CLS.
    fn refuse(
        &mut self,
        alloc: Global,
        own: u32,
        foreign: u32,
        stamp: usize,
    ) -> Result<(), AllocError>
        ensures state { OnOk result (self.new ≡ commands.refused own foreign stamp self.old) }
        ensures memory { OnErr result (said self.old < said (commands.refused own foreign stamp self.old)) }
    {
        self.join(Entry::refused(alloc, own, foreign, stamp))?;
        self.queue(Command::Cls { own, foreign })
    }

    /// Notifies the user of an end that is open by now.
    pub(crate) fn tell_opening(
        &mut self,
        peer: HostAddr,
        own: u32,
        foreign: u32,
    ) -> Result<(), AllocError>
        ensures state { OnOk result (self.new ≡ desk_told (opening_notices peer (entry_at own foreign self.old.entries)) self.old) }
        ensures memory { OnErr result (said self.old < said (desk_told (opening_notices peer (entry_at own foreign self.old.entries)) self.old)) }
    {
        let Some(at) = self.entries.place(own, foreign) else {
            return Ok(());
        };
        let entry = &self.entries.as_slice()[at];
        if entry.is_ending() {
            return Ok(());
        }
        let (Some(own_stamp), Some(partner_stamp)) = (entry.asked, entry.partner) else {
            return Ok(());
        };
        let notice = Notice::Opened {
            socket: entry.own,
            peer,
            foreign: entry.foreign,
            own_stamp,
            partner_stamp,
        };
        self.tell(notice)
    }

    /// Matches an RTS with the end that waits for it.
    fn match_rts(
        &mut self,
        peer: HostAddr,
        own: u32,
        foreign: u32,
        stamp: usize,
        link: ConnectionLink,
    ) -> Result<(), AllocError>
        ensures state { OnOk result (self.new ≡ commands.matched peer own foreign (commands.asked_on_link stamp link) self.old) }
        ensures memory { OnErr result (said self.old < said (commands.matched peer own foreign (commands.asked_on_link stamp link) self.old)) }
    {
        self.entries.ask_on_link(own, foreign, stamp, link);
        self.tell_opening(peer, own, foreign)
    }

    /// Matches an STR with the end that waits for it.
    fn match_str(
        &mut self,
        peer: HostAddr,
        own: u32,
        foreign: u32,
        stamp: usize,
        size: ByteSize,
    ) -> Result<(), AllocError>
        ensures state { OnOk result (self.new ≡ commands.matched peer own foreign (commands.asked_with_size stamp size) self.old) }
        ensures memory { OnErr result (said self.old < said (commands.matched peer own foreign (commands.asked_with_size stamp size) self.old)) }
    {
        self.entries.ask_with_size(own, foreign, stamp, size);
        self.tell_opening(peer, own, foreign)
    }

    /// Takes an RTS: the peer will receive, on a link that it names.
    fn take_rts(
        &mut self,
        alloc: Global,
        peer: HostAddr,
        own: SendSocket,
        foreign: ReceiveSocket,
        link: ConnectionLink,
        stamp: usize,
    ) -> Result<(), AllocError>
        ensures state { OnOk result (self.new ≡ commands.rts_taken peer own foreign link stamp self.old) }
        ensures memory { OnErr result (said self.old < said (commands.rts_taken peer own foreign link stamp self.old)) }
    {
        let command = Command::Rts {
            receive: foreign,
            send: own,
            link,
        };
        if has_sender_on(self.entries.as_slice(), link.number()) {
            return self.fault(alloc, ERRONEOUS, &command);
        }
        match self.entries.place(own.number(), foreign.number()) {
            Some(sender) if self.entries.as_slice()[sender].partner.is_some() => {
                self.fault(alloc, ERRONEOUS, &command)
            }
            Some(_) => self.match_rts(peer, own.number(), foreign.number(), stamp, link),
            None => self.hear_rts(alloc, own, foreign, link, stamp),
        }
    }

    /// Handles an RTS that no end waits for: a socket that listens answers, and else it is refused.
    fn hear_rts(
        &mut self,
        alloc: Global,
        own: SendSocket,
        foreign: ReceiveSocket,
        link: ConnectionLink,
        stamp: usize,
    ) -> Result<(), AllocError>
        ensures state { OnOk result (self.new ≡ commands.rts_heard own foreign link stamp (listener_on own self.old.listening) self.old) }
        ensures memory { OnErr result (said self.old < said (commands.rts_heard own foreign link stamp (listener_on own self.old.listening) self.old)) }
    {
        let Some(listener) = listener_on(&self.listening, own.number()) else {
            return self.refuse(alloc, own.number(), foreign.number(), stamp);
        };
        let size = listener.size;
        let mut entry = Entry::sending(alloc, own.number(), foreign.number(), size);
        entry.partner = Some(stamp);
        entry.link = Some(link);
        stop_listening(&mut self.listening, own.number());
        self.join(entry)?;
        self.queue(Command::Str {
            send: own,
            receive: foreign,
            size,
        })
    }

    /// Takes an STR: the peer will send, with bytes of a size that it names.
    fn take_str(
        &mut self,
        alloc: Global,
        peer: HostAddr,
        own: ReceiveSocket,
        foreign: SendSocket,
        size: ByteSize,
        stamp: usize,
    ) -> Result<(), AllocError>
        ensures state { OnOk result (self.new ≡ commands.str_taken peer own foreign size stamp self.old) }
        ensures memory { OnErr result (said self.old < said (commands.str_taken peer own foreign size stamp self.old)) }
    {
        match self.entries.place(own.number(), foreign.number()) {
            Some(receiver) if self.entries.as_slice()[receiver].partner.is_some() => {
                let command = Command::Str {
                    send: foreign,
                    receive: own,
                    size,
                };
                self.fault(alloc, ERRONEOUS, &command)
            }
            Some(_) => self.match_str(peer, own.number(), foreign.number(), stamp, size),
            None => self.hear_str(alloc, own, foreign, size, stamp),
        }
    }

    /// Handles an STR that no end waits for: a socket that listens answers where a link is free, and else it is
    /// refused.
    fn hear_str(
        &mut self,
        alloc: Global,
        own: ReceiveSocket,
        foreign: SendSocket,
        size: ByteSize,
        stamp: usize,
    ) -> Result<(), AllocError>
        ensures state { OnOk result (self.new ≡ commands.str_heard own foreign size stamp (listener_on own self.old.listening) self.old) }
        ensures memory { OnErr result (said self.old < said (commands.str_heard own foreign size stamp (listener_on own self.old.listening) self.old)) }
    {
        let Some(_) = listener_on(&self.listening, own.number()) else {
            return self.refuse(alloc, own.number(), foreign.number(), stamp);
        };
        let Some(link) = free_link(self.entries.as_slice()) else {
            return self.refuse(alloc, own.number(), foreign.number(), stamp);
        };
        let mut entry = Entry::receiving(alloc, own.number(), foreign.number(), link);
        entry.partner = Some(stamp);
        entry.size = Some(size);
        stop_listening(&mut self.listening, own.number());
        self.join(entry)?;
        self.queue(Command::Rts {
            receive: own,
            send: foreign,
            link,
        })
    }
}

// ---- closing

impl Desk {
    /// Queues the CLS of each end that has to close now.
    pub(crate) fn settle(&mut self, busy: &[u8]) -> Result<(), AllocError>
        ensures state { OnOk result (self.new ≡ settled busy.now self.old) }
        ensures memory { OnErr result (said self.old < said (settled busy.now self.old)) }
    {
        self.entries.settle(busy, &mut self.queue)
    }

    /// Removes each end that is over, and notifies the user of this host's own.
    pub(crate) fn sweep(&mut self, peer: HostAddr) -> Result<(), AllocError>
        ensures state { OnOk result (self.new ≡ swept peer self.old) }
        ensures memory { OnErr result (said self.old < said (swept peer self.old)) }
    {
        self.entries.sweep(peer, &mut self.notices)
    }

    /// Takes a CLS.
    fn take_cls(
        &mut self,
        alloc: Global,
        peer: HostAddr,
        busy: &[u8],
        own: u32,
        foreign: u32,
    ) -> Result<(), AllocError>
        ensures state { OnOk result (self.new ≡ commands.cls_taken peer busy.now own foreign self.old) }
        ensures memory { OnErr result (said self.old < said (commands.cls_taken peer busy.now own foreign self.old)) }
    {
        let Some(at) = self.entries.place(own, foreign) else {
            let command = Command::Cls {
                own: foreign,
                foreign: own,
            };
            return self.fault(alloc, NO_SOCKET, &command);
        };
        if self.entries.as_slice()[at].partner_closed {
            return Ok(());
        }
        self.entries.close_by_partner(alloc, own, foreign);
        self.settle(busy)?;
        self.sweep(peer)
    }
}

// ---- allocation and interrupts

impl Desk {
    /// Lets the sender on a link send more.
    fn grant(&mut self, link: u8, messages: u16, bits: u32)
        ensures { self.new ≡ commands.changed (sends_on link) (commands.granted messages bits) self.old }
    {
        self.entries.grant(link, messages, bits);
    }

    /// Takes an ALL: the receiver grants more.
    fn take_all(
        &mut self,
        alloc: Global,
        link: u8,
        messages: u16,
        bits: u32,
    ) -> Result<(), AllocError>
        ensures state { OnOk result (self.new ≡ commands.at_end (command.All link messages bits) (commands.all_taken link messages bits) (commands.sender_on link self.old) self.old) }
        ensures memory { OnErr result (said self.old < said (commands.at_end (command.All link messages bits) (commands.all_taken link messages bits) (commands.sender_on link self.old) self.old)) }
    {
        let command = Command::All {
            link,
            messages,
            bits,
        };
        match sender_on(self.entries.as_slice(), link) {
            Found::Open(_) => {
                self.grant(link, messages, bits);
                Ok(())
            }
            Found::Ending => Ok(()),
            Found::Unconnected => self.fault(alloc, NOT_CONNECTED, &command),
        }
    }

    /// Takes a GVB: the receiver asks for parts of the allocation back, and a RET returns them.
    fn take_gvb(
        &mut self,
        alloc: Global,
        link: u8,
        messages: u8,
        bits: u8,
    ) -> Result<(), AllocError>
        ensures state { OnOk result (self.new ≡ commands.at_end (command.Gvb link messages bits) (commands.gvb_taken link messages bits) (commands.sender_on link self.old) self.old) }
        ensures memory { OnErr result (said self.old < said (commands.at_end (command.Gvb link messages bits) (commands.gvb_taken link messages bits) (commands.sender_on link self.old) self.old)) }
    {
        let command = Command::Gvb {
            link,
            messages,
            bits,
        };
        let at = match sender_on(self.entries.as_slice(), link) {
            Found::Open(at) => at,
            Found::Ending => return Ok(()),
            Found::Unconnected => return self.fault(alloc, NOT_CONNECTED, &command),
        };
        let mut allocation = self.entries.as_slice()[at].allocation;
        let (given_messages, given_bits) = allocation.give_back(messages, bits);
        self.entries.give_back(link, messages, bits);
        self.queue(Command::Ret {
            link,
            messages: given_messages,
            bits: given_bits,
        })
    }

    /// Takes a RET: the sender returns a part of the allocation.
    fn take_ret(
        &mut self,
        alloc: Global,
        link: u8,
        messages: u16,
        bits: u32,
    ) -> Result<(), AllocError>
        ensures state { OnOk result (self.new ≡ commands.at_end (command.Ret link messages bits) (commands.ret_taken link messages bits) (commands.receiver_on link self.old) self.old) }
        ensures memory { OnErr result (said self.old < said (commands.at_end (command.Ret link messages bits) (commands.ret_taken link messages bits) (commands.receiver_on link self.old) self.old)) }
    {
        let command = Command::Ret {
            link,
            messages,
            bits,
        };
        let at = match receiver_on(self.entries.as_slice(), link) {
            Found::Open(at) => at,
            Found::Ending => return Ok(()),
            Found::Unconnected => return self.fault(alloc, NOT_CONNECTED, &command),
        };
        let allocation = self.entries.as_slice()[at].allocation;
        if messages > allocation.messages || bits > allocation.bits {
            return self.fault(alloc, ERRONEOUS, &command);
        }
        let socket = self.entries.as_slice()[at].own;
        self.entries.take_back(link, messages, bits);
        self.tell(Notice::Returned {
            socket,
            messages,
            bits,
        })
    }

    /// Takes an INR: the receiver interrupts.
    fn take_inr(&mut self, alloc: Global, link: u8) -> Result<(), AllocError>
        ensures state { OnOk result (self.new ≡ commands.at_end (command.Inr link) commands.interrupted (commands.sender_on link self.old) self.old) }
        ensures memory { OnErr result (said self.old < said (commands.at_end (command.Inr link) commands.interrupted (commands.sender_on link self.old) self.old)) }
    {
        let command = Command::Inr { link };
        let at = match sender_on(self.entries.as_slice(), link) {
            Found::Open(at) => at,
            Found::Ending => return Ok(()),
            Found::Unconnected => return self.fault(alloc, NOT_CONNECTED, &command),
        };
        let socket = self.entries.as_slice()[at].own;
        self.tell(Notice::Interrupt { socket })
    }

    /// Takes an INS: the sender interrupts.
    fn take_ins(&mut self, alloc: Global, link: u8) -> Result<(), AllocError>
        ensures state { OnOk result (self.new ≡ commands.at_end (command.Ins link) commands.interrupted (commands.receiver_on link self.old) self.old) }
        ensures memory { OnErr result (said self.old < said (commands.at_end (command.Ins link) commands.interrupted (commands.receiver_on link self.old) self.old)) }
    {
        let command = Command::Ins { link };
        let at = match receiver_on(self.entries.as_slice(), link) {
            Found::Open(at) => at,
            Found::Ending => return Ok(()),
            Found::Unconnected => return self.fault(alloc, NOT_CONNECTED, &command),
        };
        let socket = self.entries.as_slice()[at].own;
        self.tell(Notice::Interrupt { socket })
    }
}

// ---- all commands

impl Desk {
    /// Takes a command of the peer. RST and RRP are no matter of connections.
    pub(crate) fn take(
        &mut self,
        alloc: Global,
        peer: HostAddr,
        busy: &[u8],
        stamp: usize,
        command: Command,
    ) -> Result<(), AllocError>
        ensures state { OnOk result (self.new ≡ commands.desk_taken peer busy.now stamp command self.old) }
        ensures memory { OnErr result (said self.old < said (commands.desk_taken peer busy.now stamp command self.old)) }
    {
        match command {
            Command::Nop | Command::Rst | Command::Rrp => Ok(()),
            Command::Rts {
                receive,
                send,
                link,
            } => { self.take_rts(alloc, peer, send, receive, link, stamp) }
            Command::Str {
                send,
                receive,
                size,
            } => { self.take_str(alloc, peer, receive, send, size, stamp) }
            Command::Cls { own, foreign } => self.take_cls(alloc, peer, busy, foreign, own),
            Command::All {
                link,
                messages,
                bits,
            } => self.take_all(alloc, link, messages, bits),
            Command::Gvb {
                link,
                messages,
                bits,
            } => self.take_gvb(alloc, link, messages, bits),
            Command::Ret {
                link,
                messages,
                bits,
            } => self.take_ret(alloc, link, messages, bits),
            Command::Inr { link } => self.take_inr(alloc, link),
            Command::Ins { link } => self.take_ins(alloc, link),
            Command::Eco { octet } => self.queue(Command::Erp { octet }),
            Command::Erp { octet } => self.tell(Notice::Echoed { peer, octet }),
            Command::Err { code, detail } => self.tell(Notice::RemoteError { peer, code, detail }),
        }
    }
}

/// Returns whether an end sends on a link.
fn has_sender_on(entries: &[Entry], link: u8) -> bool
    ensures { result ≡ list_any (sends_on link) entries.now }
{
    entries.iter().any(|e| e.sends_on(link))
}
