ghost use Rattle.std.specs.Prelude.{◌≡◌, string_bytes};

use std::marker::Model;

/// The position in an input that a fault names, such as `line 4`.
#[derive(Debug)]
pub struct KeyText {
    text: String,
}

impl Drop for KeyText {
    fn drop(self) {
        let KeyText { text: _ } = self;
    }
}

impl Model for KeyText {
    ghost use Rattle.std.specs.Prelude.{List, ℕ, string_bytes};

    ghost Value = { List ℕ };

    ghost view = { λ key. string_bytes key.text };
}

impl KeyText {
    pub fn of(text: String) -> KeyText
        ensures { result ≡ string_bytes text }
    {
        KeyText { text }
    }

    pub fn as_str(&self) -> &str
        ensures { result.now ≡ self.now }
    {
        self.text.as_str()
    }

    pub fn into_string(self) -> String
        ensures { string_bytes result ≡ self }
    {
        let KeyText { text } = self;
        text
    }
}
