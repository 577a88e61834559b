//! Texts of traces.
mod lines;
mod texts;
