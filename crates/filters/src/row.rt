ghost use Rattle.std.specs.Prelude.{◌≡◌, true};
ghost use Rattle.std.specs.Option.{option_map};
ghost use Rattle.requests.specs.Asks.{key_of};
ghost use Rattle.requests.specs.Back.{KeyFits};
ghost use Rattle.filters.specs.Texts.{said};
ghost use Rattle.filters.specs.Fitting.{is_filter, filter_with};

use crate::text::Text;
use requests::request::Key;

pub mod make;

// A filter in the table.
// No `impl Model`: a Copy type has none that forgets what stands where no value does.
#[derive(Clone, Copy)]
pub struct Row {
    key: Key,
    kind: Text,
    name: Option<Text>,
    ghost ok: { is_filter (filter_with (key_of key) (said kind) (option_map said name)) ≡ true },
    ghost bounds: { KeyFits (key_of key) },
}
