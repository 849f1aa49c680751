//! Texts that are read by tables, and the forms of lists: command lists and certificates.
#![tactic(auto)]

pub mod any;
pub mod certificate;
pub mod commands;
pub mod fault;
pub mod fields;
pub mod items;
pub mod kinds;
pub mod laws;
pub mod names;
pub mod on_time;
mod proof;
pub mod schedule;
pub mod source;
pub mod titles;
mod watched;
mod writing;

pub use crate::certificate::{Certificate, certificate_text, read_certificate};
pub use crate::commands::{commands_text, read_commands};
pub use crate::fault::{TextFault, TextReason};
pub use crate::on_time::{OnTimeCertificate, on_time_text, read_on_time};
pub use crate::proof::{Proof, read_proof};
pub use crate::schedule::{Schedule, read_schedule, schedule_text};
pub use crate::source::Records;
