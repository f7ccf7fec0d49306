ghost use Rattle.std.specs.Prelude.{◌≡◌, ◌≤◌, length};
ghost use Rattle.std.specs.Option.{option_map, option_copied};
ghost use Rattle.filters.specs.Texts.{said, Short};

use crate::text::Text;
use capped::list::Capped;

impl Text {
    pub(crate) fn of(text: &[u8]) -> Text
        requires { length text.now ≤ 256 }
        ensures { said result ≡ text.now }
    {
        let mut bytes = Capped::new(0);
        bytes.extend(text).unwrap();
        Text { bytes }
    }

    pub(crate) fn perhaps(text: Option<&[u8]>) -> Option<Text>
        requires { Short (option_copied text) }
        ensures { option_map said result ≡ option_copied text.entry }
    {
        // no `map`: it costs a second filling of a text's room
        Some(Text::of(text?))
    }

    pub fn bytes(&self) -> &[u8]
        ensures { result.now ≡ said self.now }
    {
        self.bytes.as_slice()
    }
}
