//! The normal list of a command, read with `clap`.

ghost use Rattle.std.specs.Prelude.{◌≡◌, ◌≤◌, IfOk, IfSome, codes, fold, map, option_map, string_bytes, true, false};
ghost use Rattle.clap.specs.Words.{app_of, first_value, found_of, new_app, rule_of, with_rule};
ghost use Rattle.skew_words.specs.Called.{HasFewConflicts, HasSmallWidening, HasTwoEvents, command_in};
ghost use Rattle.skew_words.specs.NormalWords.{Calls, IsNormal, conflicts_said};
ghost use Rattle.skew_words.specs.Matched.{GivesSpoken, app_for, command_matched, conflicts_rule, operand_rule, option_rules};
ghost use Rattle.skew_words.specs.Table.{name_of};
ghost use Rattle.skew_words.specs.declared.table.Verb.TheVariants.{Audit, Check, Replay, Span, Tolerance};
ghost use Rattle.skew_words.specs.declared.limits.TheConstants.{MAX_CONFLICTS};

use crate::call::Call;
use crate::limits::DEFAULT_CONFLICTS;
use crate::numbers::{conflicts, seed, two_events, widening};
use crate::table::{Operand, Row, Verb};
use crate::values::truth_value;
use clap::error::ErrorKind;
use clap::{Arg, ArgAction, ArgMatches, Command};
use std::alloc::{AllocError, Global};

// A required positional value of this name.
fn positional<'a>(alloc: Global, name: &'a str) -> Arg<'a>
    ensures rule { rule_of result ≡ operand_rule name.now }
    ensures local { result.global ≡ false }
{
    Arg::new(alloc, name).required(true)
}

// The option `--conflicts`.
fn conflicts_option<'a>(alloc: Global) -> Arg<'a>
    ensures rule { rule_of result ≡ conflicts_rule }
    ensures local { result.global ≡ false }
{
    Arg::new(alloc, "conflicts")
        .long("conflicts")
        .action(ArgAction::Set)
}

// A command without operands.
fn bare_command<'a>(alloc: Global, row: Row) -> Result<Command<'a>, AllocError>
    ensures { IfOk result (λ command. app_of command ≡ fold with_rule (new_app row.word.now) (option_rules row.takes_conflicts)) }
{
    let command = Command::new(alloc, row.word);
    if row.takes_conflicts {
        command.arg(conflicts_option(alloc))
    } else {
        Ok(command)
    }
}

// What `clap` is to read after a command word.
fn command<'a>(alloc: Global, verb: Verb) -> Result<Command<'a>, AllocError>
    ensures { IfOk result (λ command. app_of command ≡ app_for verb) }
{
    let row = verb.row();
    let mut command = bare_command(alloc, row)?;
    for operand in row.operands {
        let name: &'a str = operand.name();
        command = command.arg(positional(alloc, name))?;
    }
    Ok(command)
}

// The matches of the normal list of a command: reading it fails for want of memory alone.
fn matches_in<'a>(
    alloc: Global,
    verb: Verb,
    list: &'a [String],
) -> Result<ArgMatches<'a>, AllocError>
    requires { IsNormal verb (map string_bytes list.now) }
    ensures { IfOk result (GivesSpoken verb (map string_bytes list.now)) }
{
    match command(alloc, verb)?.try_get_matches_from(list) {
        Ok(matches) => Ok(matches),
        Err(error) => {
            prove!(error.kind() == ErrorKind::OutOfMemory);
            Err(AllocError)
        }
    }
}

// The value of an operand.
fn value<'a>(matches: &ArgMatches<'a>, operand: Operand) -> Option<&'a str>
    ensures { option_map (λ text. text.now) result ≡ first_value (found_of matches.now) (name_of operand) }
{
    matches.get_str(operand.name())
}

// The number of conflicts that the option gives, or else the default.
fn conflicts_matched(matches: &ArgMatches<'_>) -> Option<u32>
    ensures number { result ≡ conflicts_said true (first_value (found_of matches.now) (codes "conflicts")) }
    ensures range { IfSome result (λ n. (1 ≤ n) × (n ≤ MAX_CONFLICTS)) }
{
    match matches.get_str("conflicts") {
        Some(text) => conflicts(text),
        None => Some(DEFAULT_CONFLICTS),
    }
}

// The command `replay` that matches give.
fn replay_in<'a>(matches: &ArgMatches<'a>) -> Option<Call<'a>>
    ensures command { option_map command_in result ≡ command_matched Replay (first_value (found_of matches.now)) }
    ensures bounds { IfSome result (λ call. HasFewConflicts call × HasSmallWidening call × HasTwoEvents call) }
{
    Some(Call::Replay {
        formula: value(matches, Operand::Formula)?,
        log: value(matches, Operand::Log)?,
        times: value(matches, Operand::Times)?,
    })
}

// The command `check` that matches give.
fn check_in<'a>(matches: &ArgMatches<'a>) -> Option<Call<'a>>
    ensures command { option_map command_in result ≡ command_matched Check (first_value (found_of matches.now)) }
    ensures bounds { IfSome result (λ call. HasFewConflicts call × HasSmallWidening call × HasTwoEvents call) }
{
    Some(Call::Check {
        conflicts: conflicts_matched(matches)?,
        formula: value(matches, Operand::Formula)?,
        log: value(matches, Operand::Log)?,
    })
}

// The command `audit` that matches give.
fn audit_in<'a>(matches: &ArgMatches<'a>) -> Option<Call<'a>>
    ensures command { option_map command_in result ≡ command_matched Audit (first_value (found_of matches.now)) }
    ensures bounds { IfSome result (λ call. HasFewConflicts call × HasSmallWidening call × HasTwoEvents call) }
{
    Some(Call::Audit {
        conflicts: conflicts_matched(matches)?,
        formula: value(matches, Operand::Formula)?,
        log: value(matches, Operand::Log)?,
        report: value(matches, Operand::Report)?,
    })
}

// The command `tolerance` that matches give.
fn tolerance_in<'a>(matches: &ArgMatches<'a>) -> Option<Call<'a>>
    ensures command { option_map command_in result ≡ command_matched Tolerance (first_value (found_of matches.now)) }
    ensures bounds { IfSome result (λ call. HasFewConflicts call × HasSmallWidening call × HasTwoEvents call) }
{
    Some(Call::Tolerance {
        conflicts: conflicts_matched(matches)?,
        value: truth_value(value(matches, Operand::Value)?)?,
        max: widening(value(matches, Operand::Max)?)?,
        formula: value(matches, Operand::Formula)?,
        log: value(matches, Operand::Log)?,
    })
}

// The command `span` that matches give.
fn span_in<'a>(matches: &ArgMatches<'a>) -> Option<Call<'a>>
    ensures command { option_map command_in result ≡ command_matched Span (first_value (found_of matches.now)) }
    ensures bounds { IfSome result (λ call. HasFewConflicts call × HasSmallWidening call × HasTwoEvents call) }
{
    let (from, to) = two_events(value(matches, Operand::From)?, value(matches, Operand::To)?)?;
    Some(Call::Span {
        conflicts: conflicts_matched(matches)?,
        value: truth_value(value(matches, Operand::Value)?)?,
        from,
        to,
        formula: value(matches, Operand::Formula)?,
        log: value(matches, Operand::Log)?,
    })
}

// The command that matches give.
fn call_in<'a>(verb: Verb, matches: &ArgMatches<'a>) -> Option<Call<'a>>
    ensures command { option_map command_in result ≡ command_matched verb (first_value (found_of matches.now)) }
    ensures conflicts { IfSome result HasFewConflicts }
    ensures widening { IfSome result HasSmallWidening }
    ensures events { IfSome result HasTwoEvents }
{
    match verb {
        Verb::Times => Some(Call::Times {
            log: value(matches, Operand::Log)?,
        }),
        Verb::Replay => replay_in(matches),
        Verb::Order => Some(Call::Order {
            log: value(matches, Operand::Log)?,
        }),
        Verb::Check => check_in(matches),
        Verb::Audit => audit_in(matches),
        Verb::Trim => Some(Call::Trim {
            report: value(matches, Operand::Report)?,
        }),
        Verb::Json => Some(Call::Json {
            json: value(matches, Operand::Json)?,
        }),
        Verb::Tolerance => tolerance_in(matches),
        Verb::Span => span_in(matches),
        Verb::Demo => Some(Call::Demo {
            seed: seed(value(matches, Operand::Seed)?)?,
        }),
    }
}

/// The command of a normal list, as `clap` reads it.
pub fn call_of<'a>(alloc: Global, verb: Verb, list: &'a [String]) -> Result<Call<'a>, AllocError>
    requires { IsNormal verb (map string_bytes list.now) }
    ensures command { IfOk result (Calls verb (map string_bytes list.now)) }
    ensures conflicts { IfOk result HasFewConflicts }
    ensures widening { IfOk result HasSmallWidening }
    ensures events { IfOk result HasTwoEvents }
{
    let matches = matches_in(alloc, verb, list)?;
    match call_in(verb, &matches) {
        Some(call) => Ok(call),
        None => unreachable!(),
    }
}
