//! The normal list of a command: a fixed name of the program, the option where a number of conflicts is given, `--`, and
//! the operands in order.

ghost use Rattle.std.specs.Prelude.{◌≡◌, [], IfOk, map, option_map, string_bytes};
ghost use Rattle.skew_words.specs.NormalWords.{normal_list, normal_words};

use crate::words::Spoken;
use std::alloc::{AllocError, Global};

// The words before the operands.
fn before_operands(alloc: Global, conflicts: Option<&str>) -> Result<Vec<String>, AllocError>
    ensures { IfOk result (λ list. map string_bytes list.items ≡ normal_list (option_map (λ text. text.now) conflicts.entry) []) }
{
    let mut list = Vec::new(alloc);
    list.push(String::from_str(alloc, "skewcheck")?)?;
    if let Some(text) = conflicts {
        let mut option = String::from_str(alloc, "--conflicts=")?;
        option.push_str(text)?;
        list.push(option)?;
    }
    list.push(String::from_str(alloc, "--")?)?;
    Ok(list)
}

impl Spoken<'_> {
    /// Its normal list.
    pub fn normal_list(&self, alloc: Global) -> Result<Vec<String>, AllocError>
        ensures { IfOk result (λ list. map string_bytes list.items ≡ normal_words self.now) }
    {
        let mut list = before_operands(alloc, self.conflicts)?;
        for place in 0..self.operands.count() {
            list.push(String::from_str(alloc, self.operands.word(place))?)?;
        }
        Ok(list)
    }
}
