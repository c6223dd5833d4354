//! What is propagated over: clauses, and the edges of their literals.

use crate::Links;
use clause_db::Db;

/// Clauses, and the edges of their literals.
#[derive(Clone, Copy)]
pub struct LinkedClauses<'a> {
    pub db: &'a Db,
    pub links: &'a Links,
}
