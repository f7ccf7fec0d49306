ghost use Rattle.std.specs.Prelude.{◌≡◌};
ghost use Rattle.requests.specs.Asks.{Key as AskKey, key_of};
ghost use Rattle.hosts.specs.Rules.{same_key};

use requests::request::Key;

// A row that has a key.
pub trait Keyed: Copy {
    // What a row stands for, and the key in that.
    ghost Meant: { Type 0 };

    ghost means: { Self → Meant };

    ghost key_in: { Meant → AskKey };

    fn key(&self) -> Key
        ensures { key_of result ≡ key_in (means self.now) };

    final fn has_key(&self, key: Key) -> bool
        ensures { result ≡ same_key (key_of key) (key_in (means self.now)) }
    {
        self.key() == key
    }
}
