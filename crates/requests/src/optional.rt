ghost use Rattle.std.specs.Prelude.{◌≡◌, Some, None, Option as Maybe};
ghost use Rattle.std.specs.Option.{option_map};

// A value of a request that may be there. It starts as `()`, and the step that names it makes it an `Option`,
// once: after that step the builder has another type, which has no such step.
pub trait Optional<T> {
    ghost value: { Self → Maybe T };

    fn as_ref(&self) -> Option<&T>
        ensures { option_map (λ x. x.now) result ≡ value self.now };
}

impl<T> Optional<T> for () {
    ghost value = { λ _. None };

    fn as_ref(&self) -> Option<&T> {
        None
    }
}

impl<T> Optional<T> for Option<T> {
    ghost value = { λ o. o };

    fn as_ref(&self) -> Option<&T> {
        Option::as_ref(self)
    }
}
