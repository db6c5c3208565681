// What `==V.*` matches: the versions whose release begins with a prefix, and the two ends of them in the order.
#![tactic(auto)]

pub mod next;
pub mod prefix;
