//! Texts cut at a byte.

ghost use Rattle.std.specs.Prelude.{◌≡◌, ◌==◌, ◌∷◌, ◌+◌, ◌<◌, ◌≤◌, length, position, IfSome, option_copied};
ghost use Rattle.drb_acl.specs.Patterns.{parts};
ghost use Rattle.drb_acl.specs.Cuts.{parts_of, weight};

/// What stands before the first such byte, and what behind it, where there is one.
pub(crate) fn cut(text: &[u8], byte: u8) -> (&[u8], Option<&[u8]>)
    ensures parts { parts byte text.now
        ≡ result.0.now ∷ parts_of byte (option_copied result.1) }
    ensures less { weight (option_copied result.1) ≤ length text.now }
{
    match place(text, byte) {
        Some(at) => (&text[..at], Some(&text[at + 1..])),
        None => (text, None),
    }
}

/// The place of the first such byte.
fn place(text: &[u8], byte: u8) -> Option<usize>
    ensures place { result ≡ position (λ b. b == byte) text.now }
    ensures bound { IfSome result (λ at. at < length text.now) }
{
    text.iter().position(|b| *b == byte)
}
