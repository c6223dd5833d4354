//! Answers questions on the solver, from systems of difference constraints up to verdicts. The standard input is a table.
//! The first character of a line says what it is, and any other line is left out:
//!
//! - `[`: the name of a section and `]`. The lines up to the next one are of that section.
//!
//! In each section that the next lines name, a case is given by lines that begin with
//!
//! - `=`: a formula, or a name where the questions have formulas of their own. A case begins, whose log and
//!   derivation are empty and without extra bounds, whose value sought is false and whose budget is 200000.
//! - `|`: a line of the log.
//! - `&`: an extra bound of the log: an event, another one, and the most that the first may come after it.
//! - `+`: the value sought is true.
//! - `<`: the budget of searches, from 1 to 1000000.
//! - `>`: a line of the derivation; `/`: a last line that no newline ends.
//!
//! What is asked of a case is
//!
//! - in `[rules]` `?`: a rule's number, and its arguments that aren't 0 or stand before such a one. The literals of
//!   its clause are told, one a line, or its fault.
//! - in `[problems]` `?`: a name. The problem is told: the number of nodes, `edge` with each edge, `rule` with each
//!   rule and its four arguments, and after each rule the variables of its clause with their senses, and at last
//!   `atom` with the atom of each variable, in order. `@`: a name. The same is told of the problem of the instances
//!   that the value sought asks for. `*`: a name. The size of the problem is told. `!`: a name. The numbers of the
//!   problem's clauses and atoms are told. Where the log admits no timing, `inconsistent` is told in place of
//!   each but the size.
//! - in `[derivations]` `?`: a name. It is told what the derivation shows: `refutes`, `derives`, `wrong` and the
//!   number of the first wrong line, or `syntax` and the number of the first faulty line. `%`: a name. It is told of
//!   each Learn line whether it is fresh over the rules of the problem. After either the derivation is empty.
//! - in `[searches]` `?`: a name. The problem is searched. It is told `inconsistent` for a log that admits no timing,
//!   where nothing is searched. Otherwise it is `model` for a timing that the log admits and in which the formula
//!   has the value, `refuted` for right lines that refute the value with fewer clauses learnt than the budget,
//!   `spent` and the budget for right lines with as many, and else `wrong:` and what is wrong. `!`: the same of the
//!   problem whose atoms stand in the opposite order, so that values can't be read off a timing in one pass.
//! - in `[verdicts]` `?`: how many conflicts `decide` may spend, how many `audit` allows for, and a formula. It is
//!   told what the report says of true and of false, or `inconsistent`; and then `accepted`, or the part of the
//!   report and the line at which it is refused.
//!
//! - in `[lines]` `?`: a name. The derivation is told as it is printed, or `syntax` and the number of its first
//!   faulty line. `*`: a name. It is told of the walk of its first line, which is a Cycle line, whether it is a
//!   `cycle` of the log's bounds, or else the step at which it stops to be one. `!`: two order literals and a hint,
//!   with `; ` between them. It is told whether their line has a spelling. `%`: a name. It is told which lines the last
//!   one needs, with the hints renumbered, or `empty`, or `forward` and the number of the first line with a hint that
//!   names no earlier one. After each the derivation is empty.
//! - in `[faults]` `?`: the name of a rule's fault. Its text is told.
//!
//! Other sections have no such cases. In them
//!
//! - in `[systems]` `?`: a number of nodes, and edges with `; ` before each: the first end, the last, and the bound.
//!   The numbers of the nodes are told, or the places of a cycle. `!`: the same. It is told whether the system is
//!   within the limits.
//! - in `[graphs]` `?`: numbers of nodes and of edges that there is room for, and with `; ` before each an edge to add,
//!   or `pop` and how many edges are to be left. After each it is told what came of it, and the numbers of the nodes,
//!   and at last the edges.
//! - in `[trails]` `=`: numbers of variables and of nodes. A case begins that has no clauses and no edges. `:`: the
//!   literals of a clause. `~`: a variable, and with `; ` before each the edges of its positive literal and of its
//!   negative one. `*`: a name. The clauses are told, each with the negations of its literals. `%`: a name. The edges of
//!   the variables are told. `?`: literals that are decided one after another, as long as nothing is in conflict. It is
//!   told where propagation ended, the literals, their levels, the reasons of those that aren't decisions, and how many
//!   edges are held; of a clause that is false, what it teaches; and how many literals and edges level 0 leaves.
//!
//! Headings, the lines that begin cases, and questions are written again.
#![tactic(auto)]

mod atom_order;
mod case;
mod checking;
mod clauses;
mod closed;
mod derivations;
mod edges;
mod faults;
mod fresh;
mod graphs;
mod judging;
mod known;
mod lessons;
mod lines;
mod outcome;
mod problems;
mod rules;
mod runs;
mod searches;
mod searching;
mod sections;
mod systems;
mod trails;
mod verdicts;
mod writing;

use crate::sections::Sections;
use std::process::ExitCode;
use table_case::run;

fn main(rt: HostRuntime) -> ExitCode {
    let mut sections = Sections::new(rt.alloc());
    run(&rt, &mut sections)
}
