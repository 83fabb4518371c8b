ghost use Rattle.std.specs.Prelude.{◌≡◌};
ghost use Rattle.pl_value.specs.Marks as spec;

/// The text by which JSON spells the unknown.
pub fn unknown_text() -> &'static str
    ensures { result.now ≡ spec.unknown_text }
{
    "04da6b54-80e4-46f7-96ec-b56ff0331ba9"
}

/// The key under which JSON marks the object of a secret.
pub fn secret_key() -> &'static str
    ensures { result.now ≡ spec.secret_key }
{
    "4dabf18193072939515e22adb298388d"
}

/// What stands under that key in the object of a secret.
pub fn secret_mark() -> &'static str
    ensures { result.now ≡ spec.secret_mark }
{
    "1b47061264138c4ac30d75fd1eb44270"
}

/// What is shown in a secret's place.
pub fn shown_secret() -> &'static str
    ensures { result.now ≡ spec.shown_secret }
{
    "[secret]"
}
