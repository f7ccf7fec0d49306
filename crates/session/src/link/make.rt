ghost use Rattle.std.specs.Prelude.{◌≡◌, if◌then◌else◌, Some, None};
ghost use Rattle.std.specs.Option.{option_map};
ghost use Rattle.requests.specs.Asks.{key_of};
ghost use Rattle.session.specs.Linked.{Link as Meaning, link_of, numbered, with_descriptor};

use crate::link::Link;
use keyed::row::Keyed;
use requests::handle::TcHandle;
use requests::request::Key;

impl Keyed for Link {
    ghost Meant = { Meaning };

    ghost means = { link_of };

    ghost key_in = { λ l. l.key };

    fn key(&self) -> Key {
        self.key
    }
}

impl Link {
    // A link, or none where priority or handle is 0.
    pub fn new(key: Key, descriptor: u32) -> Option<Link>
        ensures { option_map link_of result ≡ (if numbered (key_of key) then Some (record { key = key_of key; descriptor = descriptor }) else None) }
    {
        if !key.is_numbered() {
            return None;
        }
        Some(Link { key, descriptor })
    }

    pub(crate) fn blank() -> Link {
        let key = Key {
            interface: 0,
            parent: TcHandle::of_bits(0),
            priority: 1,
            handle: TcHandle::of_bits(1),
        };
        Link { key, descriptor: 0 }
    }

    pub fn descriptor(&self) -> u32
        ensures { result ≡ (link_of self.now).descriptor }
    {
        self.descriptor
    }

    pub(crate) fn with_descriptor(&self, descriptor: u32) -> Link
        ensures { link_of result ≡ with_descriptor descriptor (link_of self.now) }
    {
        Link {
            key: self.key,
            descriptor,
        }
    }
}
