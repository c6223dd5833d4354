//! The rules by their numbers, and instances of them.

ghost use Rattle.std.specs.Prelude.{◌≡◌, ◌≤◌, count_by, option_map};
ghost use Rattle.axiom_rules.specs.Clauses.{argument_count as argument_count_of, arguments_in, is_used as is_used_argument, needless_of as needless_of_rule, row_of, subject_of as subject_of_rule};

use crate::needless::Needless::{self, Never, NeverFirst, NeverLater, Reaches};
use crate::needless::OfReach::{
    AlwaysFrom, AlwaysUpTo, Dead, DeadOrFree, Free, FreeOrNotBefore, NotPast, NotWithin,
};
use mt_list::ListOf;

/// An instance of a rule: the rule's number and its arguments in order. Those that aren't used are 0.
#[derive(Clone, Copy, PartialEq, Eq)]
pub struct Rule {
    pub number: u8,
    pub args: [u32; 4],
}

/// Rules in order.
pub type RuleList = ListOf<Rule>;

/// What a rule is about.
#[derive(Clone, Copy, PartialEq, Eq)]
pub enum Subject {
    /// A proposition, with its changes and its pulses.
    Proposition,
    /// `true`.
    Constant,
    Negation,
    Conjunction,
    /// Which events are first ones.
    First,
    /// An until or a since.
    Reach,
    /// The value that is sought of the root.
    Value,
    /// Whether two events, one of which is a pulse, are at one instant.
    Instant,
}

/// What an argument of a rule is.
#[derive(Clone, Copy, PartialEq, Eq)]
pub enum Argument {
    /// A node, by its number from 0.
    ANode,
    /// An event, by its row from 0.
    AnEvent,
    /// A change of the node's proposition, by its place among these from 0.
    AChange,
    /// A pulse of it, in the same way.
    APulse,
    /// None: it is 0.
    Unused,
}

// What the four arguments of a rule are.
#[derive(Clone, Copy)]
struct Arguments(Argument, Argument, Argument, Argument);

impl Arguments {
    // The four in order.
    fn listed(self) -> [Argument; 4]
        ensures { result ≡ arguments_in self }
    {
        let Arguments(first, second, third, fourth) = self;
        [first, second, third, fourth]
    }
}

const NOTHING: Arguments = Arguments(
    Argument::Unused,
    Argument::Unused,
    Argument::Unused,
    Argument::Unused,
);

const EVENT: Arguments = Arguments(
    Argument::AnEvent,
    Argument::Unused,
    Argument::Unused,
    Argument::Unused,
);

const EVENTS: Arguments = Arguments(
    Argument::AnEvent,
    Argument::AnEvent,
    Argument::Unused,
    Argument::Unused,
);

const NODE_EVENT: Arguments = Arguments(
    Argument::ANode,
    Argument::AnEvent,
    Argument::Unused,
    Argument::Unused,
);

const NODE_EVENT_CHANGE: Arguments = Arguments(
    Argument::ANode,
    Argument::AnEvent,
    Argument::AChange,
    Argument::Unused,
);

const NODE_EVENT_PULSE: Arguments = Arguments(
    Argument::ANode,
    Argument::AnEvent,
    Argument::APulse,
    Argument::Unused,
);

const NODE_EVENTS: Arguments = Arguments(
    Argument::ANode,
    Argument::AnEvent,
    Argument::AnEvent,
    Argument::Unused,
);

const NODE_THREE_EVENTS: Arguments = Arguments(
    Argument::ANode,
    Argument::AnEvent,
    Argument::AnEvent,
    Argument::AnEvent,
);

/// The greatest number that a rule has.
pub const MAX_RULE: u8 = 28;

// The numbers of the rules, by what each says.

/// A proposition that is true has been changed, or is pulsed.
pub const TRUTH_HAS_CAUSE: u8 = 1;

/// From a change on up to the next one, a proposition is what the change makes it; where that clears it, it may be pulsed.
pub const CHANGE_LASTS: u8 = 2;

/// `true` is true.
pub const CONSTANT_IS_TRUE: u8 = 3;

/// A negation and its operand aren't both true.
pub const NEGATION_EXCLUDES: u8 = 4;

/// A negation is true, or its operand is.
pub const NEGATION_COVERS: u8 = 5;

/// Where a conjunction is true, its left side is.
pub const CONJUNCTION_HAS_LEFT: u8 = 6;

/// Where a conjunction is true, its right side is.
pub const CONJUNCTION_HAS_RIGHT: u8 = 7;

/// Where both sides of a conjunction are true, it is.
pub const CONJUNCTION_COVERS: u8 = 8;

/// A first event isn't after any.
pub const FIRST_IS_NOT_AFTER: u8 = 9;

/// An event that is after none is a first one.
pub const EARLIEST_IS_FIRST: u8 = 10;

/// Some event is a first one.
pub const SOME_IS_FIRST: u8 = 11;

/// A witness is at least the lower bound away.
pub const WITNESS_IS_FROM: u8 = 12;

/// A witness is at most the upper bound away, where there is one.
pub const WITNESS_IS_UP_TO: u8 = 13;

/// At a witness the right side holds.
pub const WITNESS_HAS_RIGHT: u8 = 14;

/// Up to a witness the left side holds.
pub const WITNESS_HAS_SPAN: u8 = 15;

/// What is in the interval, has the right side and is at the end of a span is a witness.
pub const WITNESS_COVERS: u8 = 16;

/// Where an until or a since is true, some event is a witness.
pub const TRUTH_HAS_WITNESS: u8 = 17;

/// Where some event is a witness, an until or a since is true.
pub const WITNESS_GIVES_TRUTH: u8 = 18;

/// Over a span the left side holds.
pub const SPAN_HAS_LEFT: u8 = 19;

/// Where there is no span there is a gap.
pub const SPAN_OR_GAP: u8 = 20;

/// Up to a gap there is a span.
pub const SPAN_UP_TO_GAP: u8 = 21;

/// A gap isn't before the event from which it is looked for.
pub const GAP_IS_AHEAD: u8 = 22;

/// At a gap the left side fails.
pub const GAP_LACKS_LEFT: u8 = 23;

/// At a first event the root has the value sought.
pub const FIRST_HAS_VALUE: u8 = 24;

/// Of two events at one instant neither is after the other, where one of them is a pulse.
pub const INSTANT_IS_NOT_AFTER: u8 = 25;

/// Two events of which neither is after the other are at one instant, where one of them is a pulse.
pub const INSTANT_COVERS: u8 = 26;

/// At the instant of a pulse its proposition is true.
pub const PULSE_GIVES_TRUTH: u8 = 27;

/// What is in the interval and has the right side is a witness where the left side is `true`.
pub const FREE_WITNESS_COVERS: u8 = 28;

// A row of the table of rules: what a rule is about, what its arguments are, and which of its instances are needless.
#[derive(Clone, Copy)]
struct Columns(Subject, Arguments, Needless);

// The row of rule 1, of rule 2 and so on.
static TABLE: [Columns; MAX_RULE as usize] = [
    Columns(Subject::Proposition, NODE_EVENT, Never),
    Columns(Subject::Proposition, NODE_EVENT_CHANGE, Never),
    Columns(Subject::Constant, NODE_EVENT, Never),
    Columns(Subject::Negation, NODE_EVENT, Never),
    Columns(Subject::Negation, NODE_EVENT, Never),
    Columns(Subject::Conjunction, NODE_EVENT, Never),
    Columns(Subject::Conjunction, NODE_EVENT, Never),
    Columns(Subject::Conjunction, NODE_EVENT, Never),
    Columns(Subject::First, EVENTS, NeverLater),
    Columns(Subject::First, EVENT, NeverFirst),
    Columns(Subject::First, NOTHING, Never),
    Columns(Subject::Reach, NODE_EVENTS, Reaches(AlwaysFrom)),
    Columns(Subject::Reach, NODE_EVENTS, Reaches(AlwaysUpTo)),
    Columns(Subject::Reach, NODE_EVENTS, Reaches(Dead)),
    Columns(Subject::Reach, NODE_EVENTS, Reaches(DeadOrFree)),
    Columns(Subject::Reach, NODE_EVENTS, Reaches(DeadOrFree)),
    Columns(Subject::Reach, NODE_EVENT, Never),
    Columns(Subject::Reach, NODE_EVENTS, Reaches(Dead)),
    Columns(Subject::Reach, NODE_THREE_EVENTS, Reaches(NotWithin)),
    Columns(Subject::Reach, NODE_EVENTS, Reaches(DeadOrFree)),
    Columns(Subject::Reach, NODE_THREE_EVENTS, Reaches(NotPast)),
    Columns(Subject::Reach, NODE_EVENTS, Reaches(FreeOrNotBefore)),
    Columns(Subject::Reach, NODE_EVENTS, Reaches(Free)),
    Columns(Subject::Value, EVENT, NeverFirst),
    Columns(Subject::Instant, EVENTS, Never),
    Columns(Subject::Instant, EVENTS, Never),
    Columns(Subject::Proposition, NODE_EVENT_PULSE, Never),
    Columns(Subject::Reach, NODE_EVENTS, Reaches(Dead)),
];

// The row of a rule's number, where there is one.
fn columns_of(number: u8) -> Option<Columns>
    ensures subject { option_map (λ columns. columns.0) result ≡ subject_of_rule number }
    ensures arguments { option_map (λ columns. arguments_in columns.1) result ≡ option_map (λ row. row.arguments) (row_of number) }
    ensures needless { option_map (λ columns. columns.2) result ≡ needless_of_rule number }
{
    if number == 0 {
        None
    } else {
        TABLE.get(number as usize - 1).copied()
    }
}

/// What the rule of a number is about, where there is one.
pub fn subject_of(number: u8) -> Option<Subject>
    ensures subject { result ≡ subject_of_rule number }
{
    let Columns(subject, ..) = columns_of(number)?;
    Some(subject)
}

/// What the arguments of the rule of a number are, where there is one.
pub fn arguments_of(number: u8) -> Option<[Argument; 4]>
    ensures { result ≡ option_map (λ row. row.arguments) (row_of number) }
{
    let Columns(_, arguments, _) = columns_of(number)?;
    Some(arguments.listed())
}

/// Which instances of the rule of a number are needless, where there is one.
pub fn needless_of(number: u8) -> Option<Needless>
    ensures test { result ≡ needless_of_rule number }
{
    let Columns(.., needless) = columns_of(number)?;
    Some(needless)
}

// Whether an argument is used.
fn is_used(argument: Argument) -> bool
    ensures { result ≡ is_used_argument argument }
{
    argument != Argument::Unused
}

// How many of these are used.
fn used(arguments: &[Argument]) -> usize
    ensures count { result ≡ count_by is_used_argument arguments.now }
{
    arguments
        .iter()
        .filter(|argument| is_used(**argument))
        .count()
}

/// How many arguments the rule of a number uses, which are its first ones; none where there is no such rule.
pub fn argument_count(number: u8) -> usize
    ensures count { result ≡ argument_count_of number }
    ensures at_most { result ≤ 4 }
{
    match arguments_of(number) {
        Some(arguments) => used(&arguments),
        None => 0,
    }
}
