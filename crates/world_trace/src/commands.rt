//! The commands that wait to go out to a peer, as JSON.

use crate::values::{HexString, Json};
use ncp_control::Command;
use std::fmt;
use std::fmt::Formatter;

impl Json for Command {
    ghost use Rattle.world_trace.specs.Texts.{command_object};

    ghost text = { command_object };

    fn show<W: fmt::Write>(&self, f: &mut Formatter<W>) -> fmt::Result {
        match self {
            Command::Nop => f.write_str("{\"kind\":\"nop\"}"),
            Command::Rts {
                receive,
                send,
                link,
            } => {
                let (receive, send, link) = (receive.number(), send.number(), link.number());
                write!(
                    f,
                    "{{\"kind\":\"rts\",\"receive\":{receive},\"send\":{send},\"link\":{link}}}"
                )
            }
            Command::Str {
                send,
                receive,
                size,
            } => {
                let (send, receive, size) = (send.number(), receive.number(), size.bits());
                write!(
                    f,
                    "{{\"kind\":\"str\",\"send\":{send},\"receive\":{receive},\"size\":{size}}}"
                )
            }
            Command::Cls { own, foreign } => {
                write!(
                    f,
                    "{{\"kind\":\"cls\",\"own\":{own},\"foreign\":{foreign}}}"
                )
            }
            Command::All {
                link,
                messages,
                bits,
            } => write!(
                f,
                "{{\"kind\":\"all\",\"link\":{link},\"messages\":{messages},\"bits\":{bits}}}"
            ),
            Command::Gvb {
                link,
                messages,
                bits,
            } => write!(
                f,
                "{{\"kind\":\"gvb\",\"link\":{link},\"messages\":{messages},\"bits\":{bits}}}"
            ),
            Command::Ret {
                link,
                messages,
                bits,
            } => write!(
                f,
                "{{\"kind\":\"ret\",\"link\":{link},\"messages\":{messages},\"bits\":{bits}}}"
            ),
            Command::Inr { link } => write!(f, "{{\"kind\":\"inr\",\"link\":{link}}}"),
            Command::Ins { link } => write!(f, "{{\"kind\":\"ins\",\"link\":{link}}}"),
            Command::Eco { octet } => write!(f, "{{\"kind\":\"eco\",\"octet\":{octet}}}"),
            Command::Erp { octet } => write!(f, "{{\"kind\":\"erp\",\"octet\":{octet}}}"),
            Command::Err { code, detail } => {
                write!(
                    f,
                    "{{\"kind\":\"err\",\"code\":{code},\"detail\":{}}}",
                    HexString(detail)
                )
            }
            Command::Rst => f.write_str("{\"kind\":\"rst\"}"),
            Command::Rrp => f.write_str("{\"kind\":\"rrp\"}"),
        }
    }
}
