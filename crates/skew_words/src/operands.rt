//! The operands among the words of a command.

ghost use Rattle.std.specs.Prelude.{◌≡◌, ◌<◌, ◌++◌, [], length, map, codes, bytes_eq, option_map, slice_index_or, string_bytes};
ghost use Rattle.skew_words.specs.Words.{is_option, operands_of};

/// The operands of a command, in order.
#[derive(Clone, Copy)]
pub enum Operands<'a> {
    /// `-` alone, which names the standard input.
    Input,
    /// Words, where they lie.
    Words {
        /// The words before the option, if it is given.
        front: &'a [String],
        /// The words after that and before the first `--`.
        before: &'a [String],
        /// The words after it.
        after: &'a [String],
    },
}

/// Whether a word is an option: it begins with `-` and is not `-` alone.
pub fn is_dashed(word: &String) -> bool
    ensures { result ≡ is_option (string_bytes word.now) }
{
    match word.as_str().as_bytes() {
        [first, _, ..] => *first == b'-',
        _ => false,
    }
}

/// Whether a word is `--`, after which each word is an operand.
pub fn is_mark(word: &String) -> bool
    ensures { result ≡ bytes_eq (string_bytes word.now) (codes "--") }
{
    word.as_str() == "--"
}

// The word at a place of three lists, one after another.
fn word_in<'a>(
    front: &'a [String],
    before: &'a [String],
    after: &'a [String],
    place: usize,
) -> &'a str
    requires { place < length (front.now ++ before.now ++ after.now) }
    ensures { result.now ≡ slice_index_or (map string_bytes (front.now ++ before.now ++ after.now)) place [] }
{
    let middle = front.len() + before.len();
    if place < front.len() {
        front[place].as_str()
    } else if place < middle {
        before[place - front.len()].as_str()
    } else {
        after[place - middle].as_str()
    }
}

impl<'a> Operands<'a> {
    ghost use Rattle.skew_words.specs.Called.{words_in};

    /// The words of a front, and then the operands among other words; None exactly where one of these, before
    /// the first `--`, is an option.
    pub fn among(front: &'a [String], words: &'a [String]) -> Option<Operands<'a>>
        ensures operands { option_map words_in result ≡ option_map (λ rest. map string_bytes front.now ++ rest) (operands_of (map string_bytes words.now)) }
    {
        for (i, word) in words.iter().enumerate() {
            if is_mark(word) {
                return Some(Operands::Words {
                    front,
                    before: &words[..i],
                    after: &words[i + 1..],
                });
            }
            if is_dashed(word) {
                return None;
            }
        }
        Some(Operands::Words {
            front,
            before: words,
            after: &[],
        })
    }

    /// How many there are.
    pub fn count(&self) -> usize
        ensures count { result ≡ length (words_in self.now) }
    {
        match self {
            Operands::Input => 1,
            Operands::Words {
                front,
                before,
                after,
            } => front.len() + before.len() + after.len(),
        }
    }

    /// The operand at a place.
    pub fn word(&self, place: usize) -> &'a str
        requires { place < length (words_in self.now) }
        ensures word { result.now ≡ slice_index_or (words_in self.now) place [] }
    {
        match self {
            Operands::Input => "-",
            Operands::Words {
                front,
                before,
                after,
            } => word_in(front, before, after, place),
        }
    }
}
