ghost use Rattle.pl_host_word.specs.Laws.{AnswersAreRead, AnswersAreReadAgain, WordsAreRead, WordsAreReadAgain, WordsFit};

/// The law that a word that is read has its form. It is proved and does nothing.
pub fn words_fit()
    ensures { WordsFit }
{}

/// The law that words and answers are read back from the bytes that are written for them. It is proved and does nothing.
pub fn messages_are_read()
    ensures words { WordsAreRead }
    ensures answers { AnswersAreRead }
{}

/// The law that words and answers that were read are read again from the bytes that are written for them. It is proved and
/// does nothing.
pub fn messages_are_read_again()
    ensures words { WordsAreReadAgain }
    ensures answers { AnswersAreReadAgain }
{}
