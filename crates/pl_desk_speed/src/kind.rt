//! The two locks.
ghost use Rattle.std.specs.Prelude.{◌≡◌, IfSome};
ghost use Rattle.pl_desk_speed.specs.Kinds.{kind_name};

/// Which lock the threads share.
#[derive(Clone, Copy)]
pub enum Kind {
    Lock,
    Mutex,
}

impl Kind {
    pub fn name(self) -> &'static str
        ensures { result.now ≡ kind_name self }
    {
        match self {
            Kind::Lock => "lock",
            Kind::Mutex => "mutex",
        }
    }
}

/// The kind of this name.
pub fn kind_named(name: &str) -> Option<Kind>
    ensures { IfSome result (λ kind. kind_name kind ≡ name.now) }
{
    match name {
        "lock" => Some(Kind::Lock),
        "mutex" => Some(Kind::Mutex),
        _ => None,
    }
}
