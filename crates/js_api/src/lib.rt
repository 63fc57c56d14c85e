//! The requests and answers of the JetStream API: which request a subject and its payload are, and the
//! JSON of what is answered, of acknowledgements and of refusals.
#![tactic(auto)]

mod ack;
mod answer;
mod call;
pub mod laws;
mod members;
mod message;
mod refusal;
mod reply;
mod request;
mod stream;
mod text;
mod topic;

pub use ack::{write_ack, write_ack_fault};
pub use answer::write_answer;
pub use call::{ApiCall, Which2};
pub use config_json::{ApiFault, config_of_json, config_to_json};
pub use refusal::ApiRefusal;
pub use reply::{ApiReply, StateFacts};
pub use request::read_request;
