ghost use Rattle.std.specs.Prelude.{◌≡◌, [], length, slice_get};
ghost use Rattle.std.specs.Option.{option_map};
ghost use Rattle.requests.specs.Asks.{key_of};
ghost use Rattle.keyed.specs.Rows.{added};
ghost use Rattle.session.specs.Linked.{link_of, held, dropped, confirmed, takes};
ghost use Rattle.session.specs.Held.{links_of};

use crate::link::Link;
use crate::links::Links;
use keyed::table::{Refused, Table};
use requests::request::Key;

impl Links {
    pub fn empty() -> Links
        ensures { links_of result ≡ [] }
    {
        Links {
            table: Table::new(Link::blank()),
        }
    }

    pub fn len(&self) -> usize
        ensures { result ≡ length (links_of self.now) }
    {
        self.table.len()
    }

    // The link at a place, or none behind the last.
    pub fn get(&self, i: usize) -> Option<Link>
        ensures { option_map link_of result ≡ slice_get (links_of self.now) i }
    {
        self.table.get(i)
    }

    // Whether a link has this key.
    pub fn has(&self, key: Key) -> bool
        ensures { result ≡ held (key_of key) (links_of self.now) }
    {
        self.table.has(key)
    }

    // Puts one more at the end, unless its key is held or there are 64.
    pub fn add(&mut self, link: Link) -> Result<(), Refused>
        ensures answer { result ≡ takes (link_of link).key (links_of self.old) }
        ensures after { links_of self.new ≡ added result (link_of link) (links_of self.old) }
    {
        self.table.push(link)
    }

    // Writes the descriptor into the one row of this key, if there is one.
    pub fn confirm(&mut self, key: Key, descriptor: u32)
        ensures { links_of self.new ≡ confirmed (key_of key) descriptor (links_of self.old) }
    {
        if let Some(link) = self.table.find(key) {
            self.table.replace(link.with_descriptor(descriptor));
        }
    }

    // Lets the link of this key go, if there is one, and keeps the order of the others.
    pub fn remove(&mut self, key: Key)
        ensures { links_of self.new ≡ dropped (key_of key) (links_of self.old) }
    {
        self.table.remove(key);
    }
}
