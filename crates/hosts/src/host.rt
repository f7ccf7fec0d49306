ghost use Rattle.std.specs.Prelude.{◌≡◌, ℕ, List, length};
ghost use Rattle.hosts.specs.Events.{Event, opened, sent, received, gotten, laid, Sized};
ghost use Rattle.hosts.specs.Meaning.{Filter, Meant};
ghost use Rattle.hosts.specs.Rules.{Rule};

// The other end of a socket: a kernel, or what stands in for one.
// An errno is a number: a host may answer any, and the rules leave its choice free, so an enum would lack a case for the others.
pub trait Host {
    // Whether it claims to keep the rules. A layer claims what the host below does; an end whose rules nobody can prove, nothing.
    ghost lawful: { Type 0 };

    // The filters that stand.
    ghost filters: { Self → List Filter };

    // The datagrams that wait.
    ghost waiting: { Self → List (List ℕ) };

    // What this host answers to a call, and what it is then.
    ghost did: { Self → Event → Self → Type 0 };

    // Begins anew: nothing waits.
    fn open(&mut self) -> Result<(), i32>
        ensures { did self.old (opened result) self.new };

    // Takes a request.
    fn send(&mut self, request: &[u8]) -> Result<(), i32>
        ensures { did self.old (sent request.now result) self.new };

    // Hands out the first datagram that waits, at the front of the buffer, and answers its size.
    fn receive(&mut self, buffer: &mut [u8]) -> Result<usize, i32>
        ensures done { did self.old (received (length buffer.old) (gotten result buffer.new)) self.new }
        ensures laid { buffer.new ≡ laid buffer.old (gotten result buffer.new) }
        ensures sized { Sized result buffer.new };

    ghost meant: { lawful → (h : Self) → Meant (filters h) (waiting h) };

    ghost rules: { lawful → (h : Self) (e : Event) (k : Self) → did h e k → Rule (filters h) (waiting h) e (filters k) (waiting k) };
}
