//! What holds of reports and their texts.

ghost use Rattle.report_text.specs.Laws.{BytesAreUnambiguous, CutTextsAreFaulty, TextsReadBack, TextsTellApart};

/// Bytes are at most one report, or have at most one first faulty line, and not both.
pub fn bytes_are_unambiguous()
    ensures { BytesAreUnambiguous }
{}

/// The text of a report that has a spelling is that of this report.
pub fn texts_read_back()
    ensures { TextsReadBack }
{}

/// Two reports that have a spelling are equal where their texts are.
pub fn texts_tell_apart()
    ensures { TextsTellApart }
{}

/// A report's text that ends too early is faulty at the line after its last newline.
pub fn cut_texts_are_faulty()
    ensures { CutTextsAreFaulty }
{}
