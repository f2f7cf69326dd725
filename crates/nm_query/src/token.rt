//! What the text of a query is made of: `tokens` cuts it into these, and `tree_reader` takes them.

use crate::Query;

/// An operator between two queries.
#[derive(Clone, Copy)]
pub(crate) enum Operator {
    Conjunction,
    Exclusion,
    Disjunction,
}

/// With which terms beside it a term is joined by Or: with those of its own kind, and as `Other` with none.
#[derive(Clone, Copy)]
pub(crate) enum TermKind {
    Tag,
    Id,
    Thread,
    Folder,
    Path,
    Other,
}

/// A query in a group, and with which others of the group it is joined by Or.
#[derive(Drop)]
pub(crate) struct Item {
    pub kind: TermKind,
    pub query: Query,
}

#[derive(Drop)]
pub(crate) enum Token {
    Open,
    Close,
    Negation,
    Binary(Operator),
    Term(Item),
}

/// A token, and the place of its first byte.
#[derive(Drop)]
pub(crate) struct Placed {
    pub at: u32,
    pub token: Token,
}

/// What begins at a place of the text: a token or nothing, and how many bytes it has.
#[derive(Drop)]
pub(crate) struct Lexeme {
    pub token: Option<Token>,
    pub len: usize,
}
