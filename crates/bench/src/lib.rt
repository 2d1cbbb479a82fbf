// The bench: a reader that walks a lent table letter by letter.
#![tactic(auto)]

pub mod reader;
