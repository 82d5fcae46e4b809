//! Laws of transcripts. Each function does nothing; its contract is a law about the definitions, which
//! the check proves.
ghost use Rattle.vale_text.specs.Laws.{TranscriptsTellHistories, ReadingGivesBack, ATextTellsItsNumbers};

/// Two histories of printable entries whose numbers fit have equal transcripts only if they are equal,
/// and the versions and the pools too: the text tells the history.
pub fn transcripts_tell_histories()
    ensures { TranscriptsTellHistories }
{}

/// Reading gives back what was written: the transcript of a history that may be told is read as this
/// history and no other.
pub fn reading_gives_back()
    ensures { ReadingGivesBack }
{}

/// A text tells its numbers: however it is read as the text of a history, the version, the pool, the
/// history and the free buffers are the same.
pub fn a_text_tells_its_numbers()
    ensures { ATextTellsItsNumbers }
{}
