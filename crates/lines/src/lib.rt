// A line from the host, judged: it asks, it writes, or it is refused with its first fault; and each setting's reply.
#![tactic(auto)]

pub mod fields;
pub mod judging;
pub mod replies;
pub mod verdict;
pub mod word;
