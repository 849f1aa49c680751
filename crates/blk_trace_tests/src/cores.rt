//! Tests of schedulers and of the core over them.

mod busy;
mod calls;
mod deadline;
mod depths;
mod given;
mod kyber;
mod laws;
mod listed;
mod own;
mod refusals;
mod told;
mod tried;
mod waiting;
