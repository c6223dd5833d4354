//! The clause that each rule has for a log, the nodes of a formula and the value sought.

ghost use Rattle.std.specs.Prelude.{◌≡◌, ◌<◌, ◌+◌, ◌++◌, ◌⊎◌, if◌then◌else◌, true, [], length, Some, None, AllPairs, IfOk, IfErr, OnOk, OnErr, Ok, Err, is_some, option_copied};
ghost use Rattle.std.specs.List.{list_all};
ghost use Rattle.std.specs.Option.{option_map_or};
ghost use Rattle.mt_model.specs.Form.{Form};
ghost use Rattle.formula_arena.specs.Nodes.{nodes_of};
ghost use Rattle.axiom_rules.specs.Adding.{Answers, Gives};
ghost use Rattle.axiom_rules.specs.Clauses.{are_there as are_there_in, clause_of as clause_of_rule, is_there as is_there_in, written_by};
ghost use Rattle.axiom_rules.specs.Sought.{sought_of};
ghost use Rattle.axiom_rules.specs.Each.{is_other};
ghost use Rattle.axiom_rules.specs.Parts.{clause_of_parts, clause_of_written};
ghost use Rattle.axiom_rules.specs.NodeShapes.{changes_in, is_constant as is_constant_shape, operand_in, proposition_in, pulses_in, reach_in, shape_at, sides_in};
ghost use Rattle.axiom_rules.specs.Rules as written;

use crate::RuleFault;
use crate::clause::{Clause, Each, write, write_each, write_each_of};
use crate::literal::{Atom, Literal};
use crate::part::{Part, after, is, is_not, not_after, not_same, same};
use crate::proposition::{ChangeRow, PropositionRows};
use crate::reach::Reach;
use crate::rule::{Argument, Rule, arguments_of};
use crate::shape::{Shape, shapes};
use formula_arena::Arena;
use mt_model::{Act, Log, NodeId, log_is_valid};
use std::alloc::{AllocError, Global};
use std::marker::Model;

/// The rules for one log, the nodes of one formula and a truth value. Contracts see the log, the nodes'
/// trees, the root and the value, of which it keeps copies.
#[derive(Drop)]
pub struct Rules {
    log: Log,
    shapes: Vec<Shape>,
    root: NodeId,
    value: bool,
}

impl Model for Rules {
    ghost use Rattle.std.specs.Coded.{codes};
    ghost use Rattle.formula_arena.specs.CodedForms.{coded_form};
    ghost use Rattle.axiom_rules.specs.Sought.{Sought};
    ghost use Rattle.axiom_rules.specs.Shapes.{AreShapes, trees_of};

    ghost Value = { Sought };

    ghost coded = { Prim.hlevel (codes, coded_form (Prim.hlevel codes)) };

    ghost view = { λ r. record { log = r.log; trees = trees_of r.shapes.items; root = r.root; value = r.value } };

    ghost invariant = { λ r. AreShapes r.log (trees_of r.shapes.items) r.shapes.items };
}

// The change of a place has come at event e; left out where there is no such change.
fn has_come(changes: &[ChangeRow], place: usize, e: u32) -> Part
    ensures { result ≡ written.has_come changes.now place e }
{
    match changes.get(place) {
        Some(change) => not_after(change.row(), e),
        None => Part::Known(false),
    }
}

// The pulses that count after a change: where it sets the proposition, none does.
fn pulses_after<'a>(change: &ChangeRow, pulses: &'a [u32]) -> &'a [u32]
    ensures pulses { result.now ≡ if change.now.sets then [] else pulses.now }
{
    if change.sets() { &pulses[..0] } else { pulses }
}

// Writes parts, and for each pulse that event e is at its instant.
fn write_at_pulses(
    out: &mut Clause,
    parts: &[Part],
    pulses: &[u32],
    e: u32,
) -> Result<(), RuleFault>
    requires rising { AllPairs (λ u v. u < v) pulses.now }
    requires others { list_all (is_other (Each.Same e)) parts.now ≡ true }
    ensures { Answers (clause_of_parts (parts.now ++ written.at_pulses pulses.now e)) result out.new.items }
{
    write_each_of(out, parts, pulses, Each::Same { e })
}

impl Rules {
    /// The rules for a log, the nodes of an arena and the value that is sought of the root.
    pub fn new(
        alloc: Global,
        log: &Log,
        arena: &Arena,
        root: NodeId,
        value: bool,
    ) -> Result<Rules, AllocError>
        ensures rules { IfOk result (λ r. r ≡ record { log = log.now; trees = arena.now; root = root; value = value }) }

        // Where the nodes are those of a formula, the root being the last.
        ensures formula { IfOk result (λ r. (f : Form) → arena.now ≡ nodes_of f → root + 1 ≡ length arena.now → r ≡ sought_of log.now f value) }
    {
        Ok(Rules {
            log: log.copy(alloc)?,
            shapes: shapes(alloc, log, arena)?,
            root,
            value,
        })
    }

    /// The log. Takes no memory.
    pub fn log(&self) -> &Log
        ensures log { result.now ≡ self.now.log }
    {
        &self.log
    }

    /// The number of events. Takes no memory.
    pub fn events(&self) -> u32
        ensures events { result ≡ length self.now.log.rows }
    {
        self.log.rows().len() as u32
    }

    /// The number of nodes. Takes no memory.
    pub fn nodes(&self) -> usize
        ensures nodes { result ≡ length self.now.trees }
    {
        self.shapes.len()
    }

    // What a node is, where there is such a node.
    fn shape(&self, k: u32) -> Option<&Shape>
        ensures { shape_at self.now k ≡ option_copied result }
    {
        self.shapes.get(k as usize)
    }

    /// Whether there is a node of that number and it is `true`. Takes no memory.
    pub fn is_constant(&self, k: u32) -> bool
        ensures constant { result ≡ is_constant_shape (shape_at self.now k) }
    {
        matches!(self.shape(k), Some(Shape::True))
    }

    // The rows that tell of a proposition.
    fn proposition(&self, k: u32) -> Result<&PropositionRows, RuleFault>
        ensures found { IfOk result (λ rows. proposition_in (shape_at self.now k) ≡ Some rows.now) }
        ensures rising { IfOk result (λ rows. AllPairs (λ u v. u < v) rows.now.pulses) }
        ensures kind { IfErr result (λ fault. (fault ≡ RuleFault.Kind) × (proposition_in (shape_at self.now k) ≡ None)) }
    {
        match self.shape(k) {
            Some(Shape::Prop { rows, .. }) => Ok(rows),
            _ => Err(RuleFault::Kind),
        }
    }

    /// The rows that tell of the proposition that is the node of a number, and None where there is no such node or it is
    /// no proposition. Takes no memory.
    pub fn rows_at(&self, k: u32) -> Option<&PropositionRows>
        ensures rows { proposition_in (shape_at self.now k) ≡ option_copied result }
    {
        match self.shape(k) {
            Some(Shape::Prop { rows, .. }) => Some(rows),
            _ => None,
        }
    }

    /// How many changes the proposition has that is the node of a number, and 0 where there is no such node or it is no
    /// proposition. Takes no memory.
    pub fn change_count(&self, k: u32) -> u32
        ensures count { result ≡ option_map_or (λ changes. length changes) (changes_in (shape_at self.now k)) 0 }
    {
        log_is_valid(&self.log);
        match self.shape(k) {
            Some(Shape::Prop { rows, .. }) => rows.changes.len() as u32,
            _ => 0,
        }
    }

    /// How many pulse rows the proposition has that is the node of a number, and 0 where there is no such node or it is no
    /// proposition. Takes no memory.
    pub fn pulse_count(&self, k: u32) -> u32
        ensures count { result ≡ option_map_or (λ pulses. length pulses) (pulses_in (shape_at self.now k)) 0 }
    {
        log_is_valid(&self.log);
        match self.shape(k) {
            Some(Shape::Prop { rows, .. }) => rows.pulses.len() as u32,
            _ => 0,
        }
    }

    /// Whether there is an event of that number and it is a pulse, of whatever proposition. Takes no memory.
    pub fn is_pulse(&self, e: u32) -> bool
        ensures pulse { result ≡ written.is_pulse_row self.now.log e }
    {
        match self.log.rows().get(e as usize) {
            Some(row) => matches!(row.act, Act::Pulse(_)),
            None => false,
        }
    }

    // The operand of a negation.
    fn operand(&self, k: u32) -> Result<u32, RuleFault>
        ensures found { IfOk result (λ a. operand_in (shape_at self.now k) ≡ Some a) }
        ensures kind { IfErr result (λ fault. (fault ≡ RuleFault.Kind) × (operand_in (shape_at self.now k) ≡ None)) }
    {
        match self.shape(k) {
            Some(Shape::Not(a)) => Ok(*a),
            _ => Err(RuleFault::Kind),
        }
    }

    // The sides of a conjunction.
    fn sides(&self, k: u32) -> Result<(u32, u32), RuleFault>
        ensures found { IfOk result (λ sides. sides_in (shape_at self.now k) ≡ Some sides) }
        ensures kind { IfErr result (λ fault. (fault ≡ RuleFault.Kind) × (sides_in (shape_at self.now k) ≡ None)) }
    {
        match self.shape(k) {
            Some(Shape::And(a, b)) => Ok((*a, *b)),
            _ => Err(RuleFault::Kind),
        }
    }

    // What an until or a since is.
    fn reach(&self, k: u32) -> Result<Reach, RuleFault>
        ensures found { IfOk result (λ u. reach_in (shape_at self.now k) ≡ Some u) }
        ensures kind { IfErr result (λ fault. (fault ≡ RuleFault.Kind) × (reach_in (shape_at self.now k) ≡ None)) }
    {
        match self.shape(k) {
            Some(Shape::Reach(reach)) => Ok(*reach),
            _ => Err(RuleFault::Kind),
        }
    }

    /// What the node of a number is, where it is an until or a since. Takes no memory.
    pub fn reach_at(&self, k: u32) -> Option<Reach>
        ensures reach { result ≡ reach_in (shape_at self.now k) }
    {
        match self.shape(k) {
            Some(Shape::Reach(u)) => Some(*u),
            _ => None,
        }
    }

    /// Whether there is a node of that number and it is an until or a since. Takes no memory.
    pub fn is_reach(&self, k: u32) -> bool
        ensures reach { result ≡ is_some (reach_in (shape_at self.now k)) }
    {
        matches!(self.shape(k), Some(Shape::Reach(_)))
    }

    // A proposition that is true has been changed, or is pulsed.
    fn truth_has_cause(&self, k: u32, e: u32, out: &mut Clause) -> Result<(), RuleFault>
        ensures { Gives (written.rule_1 self.now k e) result out.new.items }
    {
        let rows = self.proposition(k)?;
        let come = has_come(rows.changes.as_slice(), 0, e);
        let parts = [is_not(Atom::Node { k, e }), come];
        write_at_pulses(out, &parts, rows.pulses.as_slice(), e)
    }

    // From a change on up to the next one, a proposition is what the change makes it; where that clears it, it may be
    // pulsed.
    fn change_lasts(&self, k: u32, e: u32, place: u32, out: &mut Clause) -> Result<(), RuleFault>
        ensures { Gives (written.rule_2 self.now k e place) result out.new.items }
    {
        let rows = self.proposition(k)?;
        let changes = rows.changes.as_slice();
        let change = changes.get(place as usize).ok_or(RuleFault::Range)?;
        let literal = Literal {
            atom: Atom::Node { k, e },
            positive: change.sets(),
        };
        let parts = [
            after(change.row(), e),
            has_come(changes, place as usize + 1, e),
            Part::Says(literal),
        ];
        let pulses = pulses_after(change, rows.pulses.as_slice());
        write_at_pulses(out, &parts, pulses, e)
    }

    // `true` is true.
    fn constant_is_true(&self, k: u32, e: u32, out: &mut Clause) -> Result<(), RuleFault>
        ensures { Gives (written.rule_3 self.now k e) result out.new.items }
    {
        if self.is_constant(k) {
            write(out, &[is(Atom::Node { k, e })])
        } else {
            Err(RuleFault::Kind)
        }
    }

    // A negation and its operand aren't both true.
    fn negation_excludes(&self, k: u32, e: u32, out: &mut Clause) -> Result<(), RuleFault>
        ensures { Gives (written.rule_4 self.now k e) result out.new.items }
    {
        let a = self.operand(k)?;
        write(
            out,
            &[is_not(Atom::Node { k, e }), is_not(Atom::Node { k: a, e })],
        )
    }

    // A negation is true, or its operand is.
    fn negation_covers(&self, k: u32, e: u32, out: &mut Clause) -> Result<(), RuleFault>
        ensures { Gives (written.rule_5 self.now k e) result out.new.items }
    {
        let a = self.operand(k)?;
        write(out, &[is(Atom::Node { k, e }), is(Atom::Node { k: a, e })])
    }

    // Where a conjunction is true, its left side is.
    fn conjunction_has_left(&self, k: u32, e: u32, out: &mut Clause) -> Result<(), RuleFault>
        ensures { Gives (written.rule_6 self.now k e) result out.new.items }
    {
        let (a, _) = self.sides(k)?;
        write(
            out,
            &[is_not(Atom::Node { k, e }), is(Atom::Node { k: a, e })],
        )
    }

    // Where a conjunction is true, its right side is.
    fn conjunction_has_right(&self, k: u32, e: u32, out: &mut Clause) -> Result<(), RuleFault>
        ensures { Gives (written.rule_7 self.now k e) result out.new.items }
    {
        let (_, b) = self.sides(k)?;
        write(
            out,
            &[is_not(Atom::Node { k, e }), is(Atom::Node { k: b, e })],
        )
    }

    // Where both sides of a conjunction are true, it is.
    fn conjunction_covers(&self, k: u32, e: u32, out: &mut Clause) -> Result<(), RuleFault>
        ensures { Gives (written.rule_8 self.now k e) result out.new.items }
    {
        let (a, b) = self.sides(k)?;
        write(
            out,
            &[
                is(Atom::Node { k, e }),
                is_not(Atom::Node { k: a, e }),
                is_not(Atom::Node { k: b, e }),
            ],
        )
    }

    // A first event isn't after any.
    fn first_is_not_after(&self, e: u32, x: u32, out: &mut Clause) -> Result<(), RuleFault>
        ensures { Gives (written.rule_9 self.now e x) result out.new.items }
    {
        write(out, &[is_not(Atom::First { e }), not_after(e, x)])
    }

    // An event that is after none is a first one.
    fn earliest_is_first(&self, e: u32, out: &mut Clause) -> Result<(), RuleFault>
        ensures { Gives (written.rule_10 self.now e) result out.new.items }
    {
        write_each(
            out,
            &[is(Atom::First { e })],
            self.events(),
            Each::After { e },
        )
    }

    // Some event is a first one.
    fn some_is_first(&self, out: &mut Clause) -> Result<(), RuleFault>
        ensures { Gives (written.rule_11 self.now) result out.new.items }
    {
        write_each(out, &[], self.events(), Each::First)
    }

    // A witness is at least the lower bound away.
    fn witness_is_from(&self, k: u32, i: u32, j: u32, out: &mut Clause) -> Result<(), RuleFault>
        ensures { Gives (written.rule_12 self.now k i j) result out.new.items }
    {
        let u = self.reach(k)?;
        write(out, &[is_not(Atom::Wit { k, i, j }), u.is_from(i, j)])
    }

    // A witness is at most the upper bound away, where there is one.
    fn witness_is_up_to(&self, k: u32, i: u32, j: u32, out: &mut Clause) -> Result<(), RuleFault>
        ensures { Gives (written.rule_13 self.now k i j) result out.new.items }
    {
        let u = self.reach(k)?;
        let high = u.interval.high.ok_or(RuleFault::NoRule)?;
        write(
            out,
            &[is_not(Atom::Wit { k, i, j }), u.is_up_to(high, i, j)],
        )
    }

    // At a witness the right side holds.
    fn witness_has_right(&self, k: u32, i: u32, j: u32, out: &mut Clause) -> Result<(), RuleFault>
        ensures { Gives (written.rule_14 self.now k i j) result out.new.items }
    {
        let u = self.reach(k)?;
        write(
            out,
            &[
                is_not(Atom::Wit { k, i, j }),
                is(Atom::Node { k: u.right, e: j }),
            ],
        )
    }

    // Up to a witness the left side holds.
    fn witness_has_span(&self, k: u32, i: u32, j: u32, out: &mut Clause) -> Result<(), RuleFault>
        ensures { Gives (written.rule_15 self.now k i j) result out.new.items }
    {
        self.reach(k)?;
        write(
            out,
            &[is_not(Atom::Wit { k, i, j }), is(Atom::Span { k, i, j })],
        )
    }

    // What is in the interval, has the right side and is at the end of a span is a witness.
    fn witness_covers(&self, k: u32, i: u32, j: u32, out: &mut Clause) -> Result<(), RuleFault>
        ensures { Gives (written.rule_16 self.now k i j) result out.new.items }
    {
        let u = self.reach(k)?;
        write(
            out,
            &[
                is(Atom::Wit { k, i, j }),
                u.is_not_from(i, j),
                u.is_not_up_to(i, j),
                is_not(Atom::Node { k: u.right, e: j }),
                is_not(Atom::Span { k, i, j }),
            ],
        )
    }

    // Where an until or a since is true, some event is a witness.
    fn truth_has_witness(&self, k: u32, i: u32, out: &mut Clause) -> Result<(), RuleFault>
        ensures { Gives (written.rule_17 self.now k i) result out.new.items }
    {
        self.reach(k)?;
        let each = Each::Wit { k, i };
        write_each(out, &[is_not(Atom::Node { k, e: i })], self.events(), each)
    }

    // Where some event is a witness, an until or a since is true.
    fn witness_gives_truth(&self, k: u32, i: u32, j: u32, out: &mut Clause) -> Result<(), RuleFault>
        ensures { Gives (written.rule_18 self.now k i j) result out.new.items }
    {
        self.reach(k)?;
        write(
            out,
            &[is(Atom::Node { k, e: i }), is_not(Atom::Wit { k, i, j })],
        )
    }

    // Over a span the left side holds.
    fn span_has_left(
        &self,
        k: u32,
        i: u32,
        j: u32,
        m: u32,
        out: &mut Clause,
    ) -> Result<(), RuleFault>
        ensures { Gives (written.rule_19 self.now k i j m) result out.new.items }
    {
        let u = self.reach(k)?;
        write(
            out,
            &[
                is_not(Atom::Span { k, i, j }),
                u.after(i, m),
                u.not_after(j, m),
                is(Atom::Node { k: u.left, e: m }),
            ],
        )
    }

    // Where there is no span there is a gap.
    fn span_or_gap(&self, k: u32, i: u32, j: u32, out: &mut Clause) -> Result<(), RuleFault>
        ensures { Gives (written.rule_20 self.now k i j) result out.new.items }
    {
        self.reach(k)?;
        let each = Each::Gap { k, i };
        write_each(out, &[is(Atom::Span { k, i, j })], self.events(), each)
    }

    // Up to a gap there is a span.
    fn span_up_to_gap(
        &self,
        k: u32,
        i: u32,
        j: u32,
        m: u32,
        out: &mut Clause,
    ) -> Result<(), RuleFault>
        ensures { Gives (written.rule_21 self.now k i j m) result out.new.items }
    {
        let u = self.reach(k)?;
        write(
            out,
            &[
                is_not(Atom::Gap { k, i, m }),
                u.after(j, m),
                is(Atom::Span { k, i, j }),
            ],
        )
    }

    // A gap isn't before the event from which it is looked for.
    fn gap_is_ahead(&self, k: u32, i: u32, m: u32, out: &mut Clause) -> Result<(), RuleFault>
        ensures { Gives (written.rule_22 self.now k i m) result out.new.items }
    {
        let u = self.reach(k)?;
        write(out, &[is_not(Atom::Gap { k, i, m }), u.not_after(i, m)])
    }

    // At a gap the left side fails.
    fn gap_lacks_left(&self, k: u32, i: u32, m: u32, out: &mut Clause) -> Result<(), RuleFault>
        ensures { Gives (written.rule_23 self.now k i m) result out.new.items }
    {
        let u = self.reach(k)?;
        write(
            out,
            &[
                is_not(Atom::Gap { k, i, m }),
                is_not(Atom::Node { k: u.left, e: m }),
            ],
        )
    }

    // At a first event the root has the value sought.
    fn first_has_value(&self, e: u32, out: &mut Clause) -> Result<(), RuleFault>
        ensures { Gives (written.rule_24 self.now e) result out.new.items }
    {
        let literal = Literal {
            atom: Atom::Node {
                k: self.root.get(),
                e,
            },
            positive: self.value,
        };
        write(out, &[is_not(Atom::First { e }), Part::Says(literal)])
    }

    // Of two events at one instant neither is after the other, where one of them is a pulse.
    fn instant_is_not_after(&self, e: u32, x: u32, out: &mut Clause) -> Result<(), RuleFault>
        ensures { Gives (written.rule_25 self.now e x) result out.new.items }
    {
        if self.is_pulse(e) || self.is_pulse(x) {
            write(out, &[not_same(e, x), not_after(e, x)])
        } else {
            Err(RuleFault::NoRule)
        }
    }

    // Two events of which neither is after the other are at one instant, where one of them is a pulse.
    fn instant_covers(&self, e: u32, x: u32, out: &mut Clause) -> Result<(), RuleFault>
        ensures { Gives (written.rule_26 self.now e x) result out.new.items }
    {
        if e >= x {
            Err(RuleFault::Kind)
        } else if self.is_pulse(e) || self.is_pulse(x) {
            write(out, &[same(e, x), after(e, x), after(x, e)])
        } else {
            Err(RuleFault::NoRule)
        }
    }

    // At the instant of a pulse its proposition is true.
    fn pulse_gives_truth(
        &self,
        k: u32,
        e: u32,
        place: u32,
        out: &mut Clause,
    ) -> Result<(), RuleFault>
        ensures { Gives (written.rule_27 self.now k e place) result out.new.items }
    {
        let rows = self.proposition(k)?;
        let pulse = *rows
            .pulses
            .as_slice()
            .get(place as usize)
            .ok_or(RuleFault::Range)?;
        write(out, &[not_same(pulse, e), is(Atom::Node { k, e })])
    }

    // What is in the interval and has the right side is a witness where the left side is `true`.
    fn free_witness_covers(&self, k: u32, i: u32, j: u32, out: &mut Clause) -> Result<(), RuleFault>
        ensures { Gives (written.rule_28 self.now k i j) result out.new.items }
    {
        let u = self.reach(k)?;
        if self.is_constant(u.left) {
            write(
                out,
                &[
                    is(Atom::Wit { k, i, j }),
                    u.is_not_from(i, j),
                    u.is_not_up_to(i, j),
                    is_not(Atom::Node { k: u.right, e: j }),
                ],
            )
        } else {
            Err(RuleFault::Kind)
        }
    }

    // Whether an argument names something that is there, or isn't used and 0.
    fn is_there(&self, argument: Argument, n: u32) -> bool
        ensures { result ≡ is_there_in self.now argument n }
    {
        match argument {
            Argument::ANode => (n as usize) < self.nodes(),
            Argument::AnEvent => n < self.events(),
            Argument::AChange | Argument::APulse => true,
            Argument::Unused => n == 0,
        }
    }

    // Whether each argument names something that is there, or isn't used and 0.
    fn are_there(&self, arguments: &[Argument], args: &[u32]) -> bool
        requires { length arguments.now ≡ length args.now }
        ensures { result ≡ are_there_in self.now arguments.now args.now }
    {
        for i in 0..arguments.len() {
            if !self.is_there(arguments[i], args[i]) {
                return false;
            }
        }
        true
    }

    // That there is a rule of the number, and that its arguments are there.
    fn check(&self, rule: &Rule) -> Result<(), RuleFault>
        ensures ok { OnOk result (clause_of_rule self.now rule.now ≡ clause_of_written (written_by self.now rule.now)) }
        ensures fault { IfErr result (λ fault. clause_of_rule self.now rule.now ≡ Err fault) }
    {
        let arguments = arguments_of(rule.number).ok_or(RuleFault::NoRule)?;
        if self.are_there(&arguments, &rule.args) {
            Ok(())
        } else {
            Err(RuleFault::Range)
        }
    }

    // Writes what the rule of the number does.
    fn write_rule(&self, rule: &Rule, out: &mut Clause) -> Result<(), RuleFault>
        ensures { Gives (written_by self.now rule.now) result out.new.items }
    {
        let [k, i, j, m] = rule.args;
        match rule.number {
            1 => self.truth_has_cause(k, i, out),
            2 => self.change_lasts(k, i, j, out),
            3 => self.constant_is_true(k, i, out),
            4 => self.negation_excludes(k, i, out),
            5 => self.negation_covers(k, i, out),
            6 => self.conjunction_has_left(k, i, out),
            7 => self.conjunction_has_right(k, i, out),
            8 => self.conjunction_covers(k, i, out),
            9 => self.first_is_not_after(k, i, out),
            10 => self.earliest_is_first(k, out),
            11 => self.some_is_first(out),
            12 => self.witness_is_from(k, i, j, out),
            13 => self.witness_is_up_to(k, i, j, out),
            14 => self.witness_has_right(k, i, j, out),
            15 => self.witness_has_span(k, i, j, out),
            16 => self.witness_covers(k, i, j, out),
            17 => self.truth_has_witness(k, i, out),
            18 => self.witness_gives_truth(k, i, j, out),
            19 => self.span_has_left(k, i, j, m, out),
            20 => self.span_or_gap(k, i, j, out),
            21 => self.span_up_to_gap(k, i, j, m, out),
            22 => self.gap_is_ahead(k, i, j, out),
            23 => self.gap_lacks_left(k, i, j, out),
            24 => self.first_has_value(k, out),
            25 => self.instant_is_not_after(k, i, out),
            26 => self.instant_covers(k, i, out),
            27 => self.pulse_gives_truth(k, i, j, out),
            28 => self.free_witness_covers(k, i, j, out),
            _ => Err(RuleFault::NoRule),
        }
    }

    /// Makes `out` the clause of a rule, in the order in which the rule writes its literals, each once.
    /// After a fault `out` is empty.
    pub fn clause_of(&self, rule: &Rule, out: &mut Clause) -> Result<(), RuleFault>
        ensures clause { OnOk result (clause_of_rule self.now rule.now ≡ Ok out.new.items) }
        ensures fault { IfErr result (λ fault. (fault ≡ RuleFault.Memory) ⊎ (clause_of_rule self.now rule.now ≡ Err fault)) }
        ensures empty { OnErr result (out.new.items ≡ []) }
    {
        out.clear();
        self.check(rule)?;
        let result = self.write_rule(rule, out);
        if result.is_err() {
            out.clear();
        }
        result
    }
}
