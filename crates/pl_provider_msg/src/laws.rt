ghost use Rattle.pl_provider_msg.specs.Laws.{RepliesAreRead, RepliesAreReadAgain, RepliesFit, RequestsAreRead, RequestsAreReadAgain};

/// The law that a reply that is read fits its call. It is proved and does nothing.
pub fn replies_fit()
    ensures { RepliesFit }
{}

/// The law that requests and replies are read back from the bytes that are written for them. It is proved and does
/// nothing.
pub fn messages_are_read()
    ensures requests { RequestsAreRead }
    ensures replies { RepliesAreRead }
{}

/// The law that requests and replies that were read are read again from the bytes that are written for them. It is proved
/// and does nothing.
pub fn messages_are_read_again()
    ensures requests { RequestsAreReadAgain }
    ensures replies { RepliesAreReadAgain }
{}
