//! A formula and a log, which several commands read first.

ghost use Rattle.std.specs.Prelude.{◌≡◌, ◌∷◌, [], OnOk, ◌^◌, ◌<◌, ◌≤◌, length, true, IfOk, IsErrOf, Ok};
ghost use Rattle.mt_model.specs.Form.{form_of};
ghost use Rattle.mt_port.specs.Port.{Opens, Rose};
ghost use Rattle.mtl_parse.specs.FormulaOf.{FormulaOf};
ghost use Rattle.skew_commands.specs.Openings.{OpensAtMost, OpensLogInTurn};
ghost use Rattle.skew_commands.specs.Reads.{HoldsQuestion, IsRead, NoThird};
ghost use Rattle.skew_commands.specs.Stops.{NeverFailsToRead, RefusesFor};
ghost use Rattle.skew_commands.specs.Untold.{AreRead, RefusesQuestion, RefusesSomeQuestion};

use crate::files;
use crate::limits::{FORMULA_LIMIT, LOG_LIMIT};
use crate::refusal::Named;
use crate::reply::Stop;
use mt_model::{Formula, Log};
use mt_port::Shelf;
use std::alloc::Global;

/// A formula with the text that it was read from, and a log.
#[derive(Drop)]
pub struct Question {
    pub text: Vec<u8>,
    pub formula: Formula,
    pub log: Log,
}

/// Reads the formula and the log of these names.
pub fn read_question<S: Shelf>(
    alloc: Global,
    shelf: &mut S,
    formula: &str,
    log: &str,
) -> Result<Question, Stop>
    ensures short { IfOk result (λ q. length q.text.items < 2 ^ 31) }
    ensures reads { IfOk result (λ q. FormulaOf q.text.items (Ok (form_of q.formula))) }
    ensures read { IfOk result (λ q. S.tells shelf.old ≡ true → IsRead (S.files shelf.old) formula.now log.now q) }
    ensures some_read { IfOk result (λ q. AreRead q.text.items (form_of q.formula) q.log) }
    ensures some_refused { RefusesFor result RefusesSomeQuestion }
    ensures refused { S.tells shelf.old ≡ true → RefusesFor result (RefusesQuestion (S.files shelf.old) formula.now log.now) }
    ensures failed { IsErrOf result Stop.ReadFailed → Rose (S.faults shelf.old) (S.faults shelf.new) }
    ensures told { ¬ IsErrOf result Stop.ReadFailed → S.faults shelf.new ≡ S.faults shelf.old }
    ensures never { NeverFailsToRead (S.steady shelf.old) (S.tells shelf.old) (HoldsQuestion (S.files shelf.old) formula.now log.now NoThird) result }
    ensures later { S.faults shelf.old ≤ S.faults shelf.new }
    ensures both { OnOk result (Opens (formula.now ∷ log.now ∷ []) (S.openings shelf.old) (S.openings shelf.new)) }
    ensures openings { OpensAtMost (formula.now ∷ log.now ∷ []) (S.openings shelf.old) (S.openings shelf.new) }
    ensures in_turn { S.tells shelf.old ≡ true → OpensLogInTurn (S.files shelf.old) formula.now (S.openings shelf.old) (S.openings shelf.new) }
    ensures steady { S.steady shelf.old → S.steady shelf.new }
    ensures files { S.files shelf.new ≡ S.files shelf.old }
    ensures telling { S.tells shelf.new ≡ S.tells shelf.old }
{
    let text = files::file(alloc, shelf, formula, FORMULA_LIMIT, Named::Formula)?;
    let formula = files::formula(alloc, &text)?;
    let file = files::file(alloc, shelf, log, LOG_LIMIT, Named::Log)?;
    let log = files::log(alloc, &file)?;
    Ok(Question { text, formula, log })
}
