ghost use Rattle.std.specs.Prelude.{◌≡◌, IfSome, Some, MatchOption, ◌≢◌};
ghost use Rattle.std.specs.Option.{option_map};
ghost use Rattle.records.specs.Words.{le2};
ghost use Rattle.requests.specs.Asks.{Ask, asks};
ghost use Rattle.requests.specs.Back.{PickedOut, Writes};
ghost use Rattle.requests.specs.Places.{placed};

use crate::pick::{key_of, pick_program, pick_set_xdp};
use crate::request::Request;
use records::nlmsghdr::Nlmsghdr;
use records::numbers::{
    REQUEST_ACK_ECHO_EXCL_CREATE, RTM_DELTFILTER, RTM_GETTFILTER, RTM_NEWQDISC, RTM_NEWTFILTER,
    RTM_SETLINK,
};
use records::record::read;
use records::tcmsg::Tcmsg;

// A request about filters, by its type, its flags and its family header.
fn pick_traffic(kind: u16, flags: u16, bytes: &[u8]) -> Option<Request<'_>>
    requires { kind ≢ 19 }
    ensures { MatchOption result ((x : Ask) → Writes x «bytes».now → kind ≢ le2 «bytes».now 4) (PickedOut (λ x. x ≡ placed kind flags «bytes».now)) }
{
    let (header, _) = read::<Tcmsg>(bytes, 16)?;
    let key = key_of(&header);
    match kind {
        RTM_NEWQDISC => Some(Request::AddClsact {
            interface: key.interface,
        }),
        RTM_NEWTFILTER => {
            let program = pick_program(bytes)?;
            if flags == REQUEST_ACK_ECHO_EXCL_CREATE {
                Some(Request::Attach(key, program))
            } else {
                Some(Request::Replace(key, program))
            }
        }
        RTM_DELTFILTER => Some(Request::Remove(key)),
        RTM_GETTFILTER => Some(Request::List(key.hook())),
        _ => None,
    }
}

// The one request that these bytes could be, from where its arguments would stand in them.
fn pick(bytes: &[u8]) -> Option<Request<'_>>
    ensures { MatchOption result ((x : Ask) → Writes x «bytes».now → ⊥) (PickedOut (λ y. (x : Ask) → Writes x «bytes».now → y ≡ x)) }
{
    let (header, _) = read::<Nlmsghdr>(bytes, 0)?;
    if header.kind == RTM_SETLINK {
        pick_set_xdp(bytes)
    } else {
        pick_traffic(header.kind, header.flags, bytes)
    }
}

impl<'a> Request<'a> {
    // Reads a request back: the one whose bytes these are, if its arguments pass the checks, or none.
    pub fn read(bytes: &'a [u8]) -> Option<Request<'a>>
        ensures some { IfSome result (λ q. Writes (asks q) «bytes».now) }
        ensures each { (x : Ask) → Writes x «bytes».now → option_map asks result ≡ Some x }
    {
        let request = pick(bytes)?;
        let mut again = [0u8; 336];
        let n = request.write(&mut again).ok()?;
        (bytes == &again[..n]).then_some(request)
    }
}
