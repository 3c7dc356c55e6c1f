// List laws that several crates cite, each once. They know nothing of a battery: this crate has definitions and laws, and
// no code.
#![tactic(auto)]
