//! Tests of the scheduler that hands out what is due first, by the scripts that it is asked for.

mod scripts;
