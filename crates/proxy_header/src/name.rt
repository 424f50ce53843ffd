//! The name of a certificate.

ghost use Rattle.std.specs.Prelude.{◌≡◌, ◌↔◌, IsTrue, MatchOption, Some};
ghost use Rattle.proxy_header.specs.Names.{IsName, HasControl};
ghost use Rattle.proxy_header.specs.Header.{name_text};

use arrayvec::ArrayString;
use station_limits::CERTIFICATE_NAME_LIMIT;
use std::fmt;

/// The common name of a client's certificate: 1 to 64 bytes of UTF-8 without a control character.
#[derive(Clone, Copy, Debug, PartialEq, Eq)]
pub struct Name {
    text: ArrayString<CERTIFICATE_NAME_LIMIT>,
}

impl Name {
    /// The name that these bytes are, or `None` if they are none.
    pub(crate) fn read(bytes: &[u8]) -> Option<Name>
        ensures { MatchOption result (IsName bytes.now → ⊥)
            (λ name. (name_text name ≡ bytes.now) × IsName bytes.now) }
    {
        let text = str::from_utf8(bytes).ok()?;
        if text.is_empty() || has_control(text) {
            return None;
        }
        let text = ArrayString::from(text).ok()?;
        Some(Name { text })
    }

    /// The name's text.
    pub fn as_str(&self) -> &str
        ensures { result.now ≡ name_text self.now }
    {
        self.text.as_str()
    }
}

impl fmt::Display for Name {
    ghost output = { λ name. Some (name_text name) };

    fn fmt<W: fmt::Write>(&self, f: &mut fmt::Formatter<W>) -> fmt::Result {
        f.pad(self.as_str())
    }
}

/// Whether a text has a control character.
fn has_control(text: &str) -> bool
    ensures { IsTrue result ↔ HasControl text.now }
{
    text.chars().any(|character| character.is_control())
}
