//! Tests of the arrivals of a capture as a script.

mod scripts;
