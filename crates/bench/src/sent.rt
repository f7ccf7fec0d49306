ghost use Rattle.std.specs.Prelude.{◌≤◌, length};

// The bytes of a request, a whole header at least.
#[derive(Clone, Copy)]
pub(crate) struct Sent<'a> {
    pub(crate) bytes: &'a [u8],
    ghost whole: { 16 ≤ length bytes.now },
}
