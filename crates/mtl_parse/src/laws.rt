//! What holds of the readings of texts: each text has one, and it follows from its blanks and tokens.

ghost use Rattle.mtl_parse.specs.Laws.{HostsStandBeforeDots, NoTextLacksMemory, TextsAreUnambiguous, TextsHaveReadings, TokensAreUnambiguous};
ghost use Rattle.mtl_parse.specs.TokenTexts.{OtherTextsHaveFaults, TextsAreBlanksAndTokens};

/// Each text is a formula, or has a fault.
pub fn texts_have_readings()
    ensures { TextsHaveReadings }
{}

/// A text is at most one formula or has at most one fault, and not both.
pub fn texts_are_unambiguous()
    ensures { TextsAreUnambiguous }
{}

/// Tokens are at most one formula.
pub fn tokens_are_unambiguous()
    ensures { TokensAreUnambiguous }
{}

/// In a formula's tokens the ones that a dot follows are the hosts of its propositions, in order.
pub fn hosts_stand_before_dots()
    ensures { HostsStandBeforeDots }
{}

/// The tokens of a text are those of which it is made, with blanks between them, each as long as it can be.
pub fn texts_are_blanks_and_tokens()
    ensures { TextsAreBlanksAndTokens }
{}

/// Any other text has blanks and tokens before its first byte that is no blank and begins no token, and this
/// byte is its fault.
pub fn other_texts_have_faults()
    ensures { OtherTextsHaveFaults }
{}

/// Want of memory is no fault of a text.
pub fn no_text_lacks_memory()
    ensures { NoTextLacksMemory }
{}
