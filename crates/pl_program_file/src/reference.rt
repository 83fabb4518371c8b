ghost use Rattle.std.specs.Prelude.{◌≡◌, option_map};
ghost use Rattle.pl_program_file.specs.Reference as spec;

/// The name and the key of a text that is wholly a reference, `${name.key}`. The name ends at the first `.`.
#[tactic(auto, unfolding(crate::specs::Reference::reference_in))]
pub fn reference_in(text: &str) -> Option<(&str, &str)>
    ensures { option_map (λ found. (found.0.now, found.1.now)) result ≡ spec.reference_in text.now }
{
    let behind = behind_opening(text)?;
    let (name, rest) = parted_at_dot(behind)?;
    let (key, left) = parted_at_closing(rest)?;
    if key.is_empty() || !left.is_empty() {
        return None;
    }
    Some((name, key))
}

fn behind_opening(text: &str) -> Option<&str>
    ensures { option_map (λ behind. behind.now) result ≡ spec.behind_opening text.now }
{
    text.strip_prefix("${")
}

fn parted_at_dot(text: &str) -> Option<(&str, &str)>
    ensures { option_map (λ parts. (parts.0.now, parts.1.now)) result ≡ spec.parted spec.is_dot text.now }
{
    text.split_once('.')
}

fn parted_at_closing(text: &str) -> Option<(&str, &str)>
    ensures { option_map (λ parts. (parts.0.now, parts.1.now)) result ≡ spec.parted spec.is_closing text.now }
{
    text.split_once('}')
}

/// Whether a resource may have this name: it isn't empty and holds neither `.` nor `}`.
pub fn is_name(text: &str) -> bool
    ensures { result ≡ spec.is_name text.now }
{
    !text.is_empty() && parted_at_dot(text).is_none() && parted_at_closing(text).is_none()
}
