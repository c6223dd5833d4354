//! skewcheck: what a log of several hosts allows when each host's clock may be off.
#![tactic(auto)]

ghost use Rattle.std.specs.Prelude.{◌≡◌, ◌≢◌, ◌⊎◌, ◌↔◌, true, IfOk, IsErr, drop};
ghost use Rattle.std.specs.Process.{exit_status};
ghost use Rattle.std.specs.Vec.Iter.{into_iter_items};
ghost use Rattle.mt_port.specs.Port.{Rose};
ghost use Rattle.skew_answers.specs.Statuses.{IsAnswer, code_of};
ghost use Rattle.skew_cli.specs.Outcome.{EndsFor, HasPossible, OpensNamed, OpensNamedInTurn, WhereTold};
ghost use Rattle.skewcheck.specs.Ended.{EndsBy, ExitsFor, IsSilent, OpensGivenInTurn, words_in};

use mt_port::{FileShelf, Shelf, Sink, StdSink};
use skew_answers::Status;
use skew_cli::run;
use std::alloc::{AllocError, Global};
use std::env::{self, Args};
use std::io;
use std::process::ExitCode;

/// The exit status where the system doesn't give the words of the command line.
const NO_WORDS: u8 = 71;

// The words after the first argument, which is the program's name.
fn words_of(alloc: Global, mut arguments: Args) -> Result<Vec<String>, AllocError>
    ensures { IfOk result (λ words. words.items ≡ drop 1 (into_iter_items arguments)) }
{
    let mut words = Vec::new(alloc);
    arguments.next();
    for word in arguments {
        words.push(word)?;
    }
    Ok(words)
}

// What a run on the words among these arguments answers.
fn answer<S: Shelf, K: Sink>(alloc: Global, arguments: Args, shelf: &mut S, out: &mut K) -> Status
    ensures outcome { S.tells shelf.old ≡ true → EndsFor (words_in arguments) (S.files shelf.old) K.tells K.bytes out.old out.new result }
    ensures silent { K.tells out.old ≡ true → (result ≡ Status.NoMemory) ⊎ (result ≡ Status.ReadFailed) → K.bytes out.new ≡ K.bytes out.old }
    ensures possible { IsAnswer result → HasPossible (words_in arguments) result }
    ensures read { result ≡ Status.ReadFailed → Rose (S.faults shelf.old) (S.faults shelf.new) }
    ensures read_told { ¬ (result ≡ Status.ReadFailed) → S.faults shelf.new ≡ S.faults shelf.old }
    ensures write { result ≡ Status.WriteFailed → Rose (K.faults out.old) (K.faults out.new) }
    ensures write_told { ¬ (result ≡ Status.WriteFailed) → K.faults out.new ≡ K.faults out.old }
    ensures openings { OpensNamed (words_in arguments) (S.openings shelf.old) (S.openings shelf.new) }
    ensures in_turn { WhereTold S.tells S.files S.openings shelf.old shelf.new (OpensNamedInTurn (words_in arguments)) }
{
    match words_of(alloc, arguments) {
        Ok(words) => run(alloc, &words, shelf, out),
        Err(_) => Status::NoMemory,
    }
}

// The exit status after a run on what the system gave as the program's arguments.
fn ended<S: Shelf, K: Sink>(
    alloc: Global,
    given: io::Result<Args>,
    shelf: &mut S,
    out: &mut K,
) -> ExitCode
    // It is 71 exactly where the system gave none.
    ensures no_words { IsErr given ↔ (exit_status result ≡ 71) }

    // Otherwise it is the number of what a run on the arguments behind the first answers.
    ensures outcome { S.tells shelf.old ≡ true → ExitsFor given (S.files shelf.old) K.tells K.bytes out.old out.new (exit_status result) }
    ensures silent { K.tells out.old ≡ true → IsSilent (exit_status result) → K.bytes out.new ≡ K.bytes out.old }
    ensures possible { IfOk given (λ arguments. EndsBy (λ s. IsAnswer s → HasPossible (words_in arguments) s) (exit_status result)) }

    // A failure of a device is told by it where the device's count rose, and nowhere else.
    ensures read { exit_status result ≡ code_of Status.ReadFailed → Rose (S.faults shelf.old) (S.faults shelf.new) }
    ensures read_told { exit_status result ≢ code_of Status.ReadFailed → S.faults shelf.new ≡ S.faults shelf.old }
    ensures write { exit_status result ≡ code_of Status.WriteFailed → Rose (K.faults out.old) (K.faults out.new) }
    ensures write_told { exit_status result ≢ code_of Status.WriteFailed → K.faults out.new ≡ K.faults out.old }
    ensures openings { IfOk given (λ arguments. OpensNamed (words_in arguments) (S.openings shelf.old) (S.openings shelf.new)) }
    ensures in_turn { WhereTold S.tells S.files S.openings shelf.old shelf.new (OpensGivenInTurn given) }
{
    match given {
        Ok(arguments) => ExitCode::from(answer(alloc, arguments, shelf, out).code()),
        Err(_) => ExitCode::from(NO_WORDS),
    }
}

fn main(rt: HostRuntime) -> ExitCode {
    let mut shelf = FileShelf::new(&rt);
    let mut out = StdSink::new(&rt);
    ended(rt.alloc(), env::args(&rt), &mut shelf, &mut out)
}
