ghost use Rattle.std.specs.Prelude.{◌≡◌};
ghost use Rattle.rinda_marks.specs.Hashes.{keyed, hash_of as hash_of_spec};

use std::hash::{DefaultHasher, Hasher};

/// Two words that nobody else knows, ready for use: marks are made under them.
///
/// It has no `Debug`, so that it is never printed.
#[derive(Clone, Copy)]
pub struct Secret {
    start: DefaultHasher,
}

impl Secret {
    /// The secret of two words, which should be random and kept.
    pub fn new(first: u64, second: u64) -> Secret
        ensures { result ≡ keyed first second }
    {
        let mut start = DefaultHasher::new();
        start.write(&first.to_le_bytes());
        start.write(&second.to_le_bytes());
        Secret { start }
    }
}

/// The number of these bytes, as those of a value of that kind.
#[tactic(auto, unfolding(crate::specs::Hashes::hash_of))]
pub fn hash_of(secret: &Secret, kind: u8, bytes: &[u8]) -> u64
    ensures { result ≡ hash_of_spec secret.now kind bytes.now }
{
    let mut hasher = secret.start;
    hasher.write(bytes);
    hasher.write(&kind.to_le_bytes());
    hasher.finish()
}
