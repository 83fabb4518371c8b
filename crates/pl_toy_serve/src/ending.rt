ghost use Rattle.std.specs.Prelude.{◌≡◌};
ghost use Rattle.pl_toy_serve.specs.Served.{status_of};

/// How a service ends.
#[derive(Clone, Copy)]
pub(crate) enum Ending {
    /// The input ended before a frame.
    InputEnd,
    /// As many requests as there may be were answered.
    Enough,
    /// The pipe failed.
    PipeFault,
    /// The input ended within a frame.
    CutShort,
    /// A frame came that is no request.
    NoRequest,
    /// No memory was found.
    NoMemory,
}

impl Ending {
    pub(crate) fn status(self) -> u8
        ensures { result ≡ status_of self }
    {
        match self {
            Ending::InputEnd => 0,
            Ending::Enough => 4,
            Ending::PipeFault => 5,
            Ending::CutShort => 6,
            Ending::NoRequest => 6,
            Ending::NoMemory => 7,
        }
    }
}
