ghost use Rattle.std.specs.Prelude.{◌≡◌, IfOk};

use pl_text::{OutOfMemory, Text};
use thiserror::Error;

/// Why a JSON value is no property value. The text is the path of the faulty value: the keys from the
/// outermost object on, joined by `.`, with `[i]` for an element of a list.
#[derive(Debug, Drop, Error)]
pub enum JsonFault {
    /// A number with a fraction or an exponent, `-0`, or one that has no place in 64 signed bits.
    #[error("a number that is not whole")]
    NotWhole(Text),
    /// A secret that has its `ciphertext` alone.
    #[error("a sealed secret")]
    SecretSealed(Text),
    /// A marked object that spells no secret.
    #[error("a bad secret")]
    BadSecret(Text),
    /// A list, an object or a secret inside 64 others.
    #[error("a value that is nested too deep")]
    TooDeep(Text),
    #[error("out of memory")]
    OutOfMemory,
}

impl JsonFault {
    pub fn copy(&self) -> Result<JsonFault, OutOfMemory>
        ensures { IfOk result (λ made. made ≡ self.now) }
    {
        Ok(match self {
            JsonFault::NotWhole(path) => JsonFault::NotWhole(path.copy()?),
            JsonFault::SecretSealed(path) => JsonFault::SecretSealed(path.copy()?),
            JsonFault::BadSecret(path) => JsonFault::BadSecret(path.copy()?),
            JsonFault::TooDeep(path) => JsonFault::TooDeep(path.copy()?),
            JsonFault::OutOfMemory => JsonFault::OutOfMemory,
        })
    }
}
