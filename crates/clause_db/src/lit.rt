//! Literals: variables with a sense.

ghost use Rattle.std.specs.Prelude.{◌≡◌};
ghost use Rattle.clause_db.specs.Literals.{negation};

use crate::Var;

/// A literal: a variable with a sense, that is, the variable or its negation.
#[derive(Clone, Copy, PartialEq, Eq, PartialOrd, Ord, Hash)]
pub struct Lit {
    var: u32,
    positive: bool,
}

impl Lit {
    /// The literal that says of the variable that it is true, or else that it is false.
    pub fn new(var: Var, positive: bool) -> Lit
        ensures variable { result.var ≡ var }
        ensures sense { result.positive ≡ positive }
    {
        Lit {
            var: var.get(),
            positive,
        }
    }

    /// Its variable.
    pub fn var(&self) -> Var
        ensures variable { result ≡ self.now.var }
    {
        Var::new(self.var)
    }

    /// Whether it says that its variable is true.
    pub fn positive(&self) -> bool
        ensures sense { result ≡ self.now.positive }
    {
        self.positive
    }

    /// The literal of the same variable and the other sense.
    pub fn negated(&self) -> Lit
        ensures other { result ≡ negation self.now }
    {
        Lit {
            var: self.var,
            positive: !self.positive,
        }
    }
}
