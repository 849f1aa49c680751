//! Tests of captures as texts.

mod printed;
mod texts;
