//! What holds of every text that is written into markup.
ghost use Rattle.svg_charts.specs.Escapes.{ATextIsReadBack, ATextStaysInItsPlace};

/// What is written for a text holds no less-than or greater-than sign and no quote.
pub fn a_text_stays_in_its_place()
    ensures { ATextStaysInItsPlace }
{}

/// What is written for a text is read as that text: each ampersand in it begins an entity, and each entity stands for one byte.
pub fn a_text_is_read_back()
    ensures { ATextIsReadBack }
{}
