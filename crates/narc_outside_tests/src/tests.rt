//! Tests, by what they are about.
mod again;
mod captures;
mod line_reader;
mod lines;
mod memory;
mod options;
mod reading;
mod std_sink;
mod std_source;
mod texts;
mod written;
