ghost use Rattle.std.specs.Prelude.{◌≡◌};
ghost use Rattle.pl_json.specs.Read as read;
ghost use Rattle.pl_json.specs.Spelled as spelled;

/// The key under which the object of a secret holds the text of its value.
pub fn plaintext_key() -> &'static str
    ensures { result.now ≡ spelled.plaintext_key }
{
    "plaintext"
}

/// The key under which it holds what only the keeper of a key can read.
pub fn ciphertext_key() -> &'static str
    ensures { result.now ≡ read.ciphertext_key }
{
    "ciphertext"
}
