//! Which instances of rules are needless, by the least and the greatest differences of events.

ghost use Rattle.std.specs.Prelude.{◌≡◌, ◌||◌, true, false, int_le, int_lt, pos};
ghost use Rattle.std.specs.Option.{option_map_or};
ghost use Rattle.question.specs.Extremes as extremes;
ghost use Rattle.axiom_rules.specs.Clauses.{needless_of as needless_of_rule};
ghost use Rattle.axiom_rules.specs.declared.needless.Needless.TheVariants.{Reaches};
ghost use Rattle.mtl_encode.specs.Needless as needless;

use axiom_rules::{Needless, OfReach, Reach, Rule, Rules, needless_of};
use question::{farthest, greatest_between, least_between, nearest};
use skew_bounds::Tight;

// Whether another event is always before an event.
fn is_never_first(tight: &Tight, events: u32, e: u32) -> bool
    ensures { result ≡ needless.is_never_first (extremes.extremes_of tight.now) events e }
{
    (0..events).any(|f| greatest_between(tight, e, f) < 0)
}

/// Whether the least distance of two events is at least the lower bound of the interval.
pub fn is_always_from(u: &Reach, nearest: i128) -> bool
    ensures { result ≡ int_le (pos u.now.interval.low) nearest }
{
    u.interval.low as i128 <= nearest
}

/// Whether their greatest distance is less than that.
pub fn is_never_from(u: &Reach, farthest: i128) -> bool
    ensures { result ≡ int_lt farthest (pos u.now.interval.low) }
{
    farthest < u.interval.low as i128
}

fn may_be_from(u: &Reach, farthest: i128) -> bool
    ensures { result ≡ int_le (pos u.now.interval.low) farthest }
{
    u.interval.low as i128 <= farthest
}

/// Whether their greatest distance is at most the upper bound, where there is one.
pub fn is_always_up_to(u: &Reach, farthest: i128) -> bool
    ensures { result ≡ option_map_or (λ b. int_le farthest (pos b)) u.now.interval.high true }
{
    match u.interval.high {
        Some(high) => farthest <= high as i128,
        None => true,
    }
}

/// Whether their least distance is more than that.
pub fn is_never_up_to(u: &Reach, nearest: i128) -> bool
    ensures { result ≡ option_map_or (λ b. int_lt (pos b) nearest) u.now.interval.high false }
{
    match u.interval.high {
        Some(high) => (high as i128) < nearest,
        None => false,
    }
}

// Whether no distance from the least to the greatest one is in the interval.
fn is_out(u: &Reach, nearest: i128, farthest: i128) -> bool
    ensures { result ≡ (int_lt farthest (pos u.now.interval.low) || option_map_or (λ b. int_lt (pos b) nearest) u.now.interval.high false) }
{
    is_never_from(u, farthest) || is_never_up_to(u, nearest)
}

/// Whether the distance of two events is never in the interval.
pub fn is_dead(tight: &Tight, u: &Reach, i: u32, j: u32) -> bool
    ensures { result ≡ needless.is_dead (extremes.extremes_of tight.now) u.now i j }
{
    is_out(
        u,
        nearest(tight, u.direction, i, j),
        farthest(tight, u.direction, i, j),
    )
}

/// Whether event m is always before event i, as the node looks.
pub fn is_always_before(tight: &Tight, u: &Reach, m: u32, i: u32) -> bool
    ensures { result ≡ needless.is_always_before (extremes.extremes_of tight.now) u.now m i }
{
    farthest(tight, u.direction, i, m) < 0
}

/// Whether it never is.
pub fn is_never_before(tight: &Tight, u: &Reach, m: u32, i: u32) -> bool
    ensures { result ≡ needless.is_never_before (extremes.extremes_of tight.now) u.now m i }
{
    0 <= nearest(tight, u.direction, i, m)
}

// Whether a test of an until or a since leaves the instance of these arguments out.
fn leaves_out_reach(rules: &Rules, tight: &Tight, test: OfReach, u: &Reach, args: [u32; 4]) -> bool
    ensures { result ≡ needless.leaves_out_reach (extremes.extremes_of tight.now) rules.now test u.now args }
{
    let [_, i, j, m] = args;
    let is_free = rules.is_constant(u.left);
    match test {
        OfReach::AlwaysFrom => {
            let nearest = nearest(tight, u.direction, i, j);
            let farthest = farthest(tight, u.direction, i, j);
            is_always_from(u, nearest) || (is_out(u, nearest, farthest) && may_be_from(u, farthest))
        }
        OfReach::AlwaysUpTo => {
            let farthest = farthest(tight, u.direction, i, j);
            is_always_up_to(u, farthest) || is_never_from(u, farthest)
        }
        OfReach::Dead => is_dead(tight, u, i, j),
        OfReach::DeadOrFree => is_dead(tight, u, i, j) || is_free,
        OfReach::NotWithin => {
            is_dead(tight, u, i, j)
                || is_free
                || is_always_before(tight, u, m, i)
                || is_never_before(tight, u, m, j)
        }
        OfReach::NotPast => is_dead(tight, u, i, j) || is_free || is_always_before(tight, u, m, j),
        OfReach::FreeOrNotBefore => is_free || is_never_before(tight, u, j, i),
        OfReach::Free => is_free,
    }
}

// Whether a test of an until or a since leaves the instance of these arguments out, the first of which is its node.
fn leaves_out_at(rules: &Rules, tight: &Tight, test: OfReach, args: [u32; 4]) -> bool
    ensures { result ≡ needless.leaves_out (extremes.extremes_of tight.now) rules.now (Reaches test) args }
{
    let [k, ..] = args;
    match rules.reach_at(k) {
        Some(u) => leaves_out_reach(rules, tight, test, &u, args),
        None => false,
    }
}

// Whether a test leaves the instance of these arguments out.
fn leaves_out(rules: &Rules, tight: &Tight, test: Needless, args: [u32; 4]) -> bool
    ensures { result ≡ needless.leaves_out (extremes.extremes_of tight.now) rules.now test args }
{
    let [k, i, ..] = args;
    match test {
        Needless::Never => false,
        Needless::NeverLater => 0 <= least_between(tight, k, i),
        Needless::NeverFirst => is_never_first(tight, rules.events(), k),
        Needless::Reaches(test) => leaves_out_at(rules, tight, test, args),
    }
}

/// Whether no span of an until or a since is needed from one event to another: the pair is dead, or the left side is
/// `true`.
pub fn needs_no_span(rules: &Rules, tight: &Tight, k: u32, i: u32, j: u32) -> bool
    ensures { result ≡ needless.needs_no_span (extremes.extremes_of tight.now) rules.now k i j }
{
    match rules.reach_at(k) {
        Some(u) => is_dead(tight, &u, i, j) || rules.is_constant(u.left),
        None => false,
    }
}

// Whether a test leaves out each instance on a third event where no span is needed.
fn is_of_span(test: Needless) -> bool
    ensures { result ≡ needless.is_of_span test }
{
    matches!(
        test,
        Needless::Reaches(OfReach::NotWithin | OfReach::NotPast)
    )
}

/// Whether a rule is about the events of a span: each of its instances is needless where no span is needed.
pub fn is_needless_over_span(number: u8) -> bool
    ensures { result ≡ option_map_or needless.is_of_span (needless_of_rule number) false }
{
    match needless_of(number) {
        Some(test) => is_of_span(test),
        None => false,
    }
}

// Whether a test of an until or a since leaves out each instance where the left side is `true`.
fn is_of_free(test: OfReach) -> bool
    ensures { result ≡ needless.is_of_free test }
{
    match test {
        OfReach::AlwaysFrom => false,
        OfReach::AlwaysUpTo => false,
        OfReach::Dead => false,
        OfReach::DeadOrFree => true,
        OfReach::NotWithin => true,
        OfReach::NotPast => true,
        OfReach::FreeOrNotBefore => true,
        OfReach::Free => true,
    }
}

// Whether a test does.
fn leaves_out_free(test: Needless) -> bool
    ensures { result ≡ needless.leaves_out_free test }
{
    match test {
        Needless::Reaches(test) => is_of_free(test),
        Needless::Never => false,
        Needless::NeverLater => false,
        Needless::NeverFirst => false,
    }
}

// Whether a node is an until or a since whose left side is `true`.
fn is_free(rules: &Rules, k: u32) -> bool
    ensures { result ≡ needless.is_free rules.now k }
{
    match rules.reach_at(k) {
        Some(u) => rules.is_constant(u.left),
        None => false,
    }
}

// Whether the test of a rule leaves out each instance where the left side is `true`.
fn is_needless_for_free(number: u8) -> bool
    ensures { result ≡ option_map_or needless.leaves_out_free (needless_of_rule number) false }
{
    match needless_of(number) {
        Some(test) => leaves_out_free(test),
        None => false,
    }
}

/// Whether each instance of a rule for a node is needless, since the left side of its until or since is `true`.
pub fn is_needless_throughout(rules: &Rules, number: u8, k: u32) -> bool
    ensures { result ≡ needless.is_needless_throughout rules.now number k }
{
    is_needless_for_free(number) && is_free(rules, k)
}

/// Whether an instance of a rule is needless.
pub fn is_needless(rules: &Rules, tight: &Tight, rule: &Rule) -> bool
    ensures { result ≡ needless.is_needless (extremes.extremes_of tight.now) rules.now rule.now }
{
    match needless_of(rule.number) {
        Some(test) => leaves_out(rules, tight, test, rule.args),
        None => false,
    }
}
