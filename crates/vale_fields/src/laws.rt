//! Laws of fields. Each function does nothing; its contract is a law about the definitions, which the
//! check proves.
ghost use Rattle.vale_fields.specs.Laws.{WordsAreRead, WhatIsReadFits};

/// The words of a printable entry whose numbers fit are read as this entry.
pub fn words_are_read()
    ensures { WordsAreRead }
{}

/// The numbers of what is read fit their fields.
pub fn what_is_read_fits()
    ensures { WhatIsReadFits }
{}
