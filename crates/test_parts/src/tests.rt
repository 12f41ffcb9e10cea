//! Values as lines and groups as values, and back.

mod groups;
mod joins;
mod line_source;
mod scalars;
