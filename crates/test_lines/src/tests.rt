//! Schemas and values, the lines of pieces as records, and inputs in rounds.

mod records;
mod rounds;
mod schemas;
