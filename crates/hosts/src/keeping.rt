ghost use Rattle.hosts.specs.Keeping.{Keeps};

use crate::host::Host;

// A host that claims to keep the rules keeps them.
pub fn keeps<H: Host>(_host: &H)
    ensures { H.Host.lawful → Keeps H.Host.filters H.Host.waiting H.Host.did }
{}
