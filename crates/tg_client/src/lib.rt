//! The client, which trusts no server: a query's CAR is verified while it comes.
#![tactic(auto)]

mod body;
mod cars;
mod fault;
pub mod laws;
mod telling;

pub use body::CarBody;
pub use cars::{verify_car, verify_car_telling};
pub use fault::ClientFault;
pub use telling::{TellTerminal, Untold};
