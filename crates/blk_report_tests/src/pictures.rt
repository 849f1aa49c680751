//! Tests of pictures.

mod given;
mod pictured;
