//! What tokens are by their spelling. A number that the table of names does not have counts as no text.

ghost use Rattle.std.specs.Prelude.{◌≡◌};
ghost use Rattle.sv_names.specs.Noted.{spelled};

use sv_tree::{Names, Token};

/// Whether a token has this spelling.
pub fn is_spelled(names: &Names, token: Token, text: &[u8]) -> bool
    ensures { result ≡ spelled names.now token text.now }
{
    names.text_of(token.name) == text
}
