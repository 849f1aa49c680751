//! Tests of what lies between a submitter and a scheduler: bios, requests, plugs, software queues, maps and requeue lists.

mod bios;
mod given;
mod hardware;
mod picks;
mod plugs;
mod software;
