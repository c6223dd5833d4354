//! The formula of the demo.

ghost use Rattle.std.specs.Prelude.{◌≡◌, codes, true, IfOk};
ghost use Rattle.mt_model.specs.Form.{Eventually as eventually_of, Prop as prop_of, form_of};
ghost use Rattle.mt_model.specs.Name.{is_name};
ghost use Rattle.demo_log.specs.DemoFormula.{answered as answered_form, demo_formula as demo_form, within_20};

use crate::generator::name;
use mt_model::{Formula, Interval, Tree};
use std::alloc::{AllocError, Global};

// A proposition of a host.
fn proposition(alloc: Global, host: &str, proposition: &str) -> Result<Tree, AllocError>
    requires host { is_name host.now ≡ true }
    requires name { is_name proposition.now ≡ true }
    ensures { IfOk result (λ tree. form_of tree ≡ prop_of host.now proposition.now) }
{
    Ok(Tree::Prop {
        host: name(alloc, host)?,
        name: name(alloc, proposition)?,
    })
}

// `F[0,20] h1.q`
fn soon(alloc: Global) -> Result<Tree, AllocError>
    ensures { IfOk result (λ tree. form_of tree ≡ eventually_of within_20 (prop_of (codes "h1") (codes "q"))) }
{
    let within = Interval {
        low: 0,
        high: Some(20),
    };
    Ok(Tree::Eventually(within, Box::new(alloc, proposition(alloc, "h1", "q")?)?))
}

// `h0.p -> F[0,20] h1.q`
fn answered(alloc: Global) -> Result<Tree, AllocError>
    ensures { IfOk result (λ tree. form_of tree ≡ answered_form) }
{
    Ok(Tree::Implies(
        Box::new(alloc, proposition(alloc, "h0", "p")?)?,
        Box::new(alloc, soon(alloc)?)?,
    ))
}

/// The formula of the demo, `G (h0.p -> F[0,20] h1.q)`. An error is want of memory.
pub fn demo_formula(alloc: Global) -> Result<Formula, AllocError>
    ensures formula { IfOk result (λ f. form_of f ≡ demo_form) }
{
    let always = Interval { low: 0, high: None };
    let tree = Tree::Always(always, Box::new(alloc, answered(alloc)?)?);
    match Formula::new(tree) {
        Some(formula) => Ok(formula),
        None => unreachable!(),
    }
}
