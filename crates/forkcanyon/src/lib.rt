// The library: its calls with numbers, the table's bytes and a reply of 12 bytes, by either engine.
#![tactic(auto)]

pub use both::cold_list::cold;
pub use both::{look, open, retire};
pub use host::{adopt, deliver, drain, get, put, touch};
pub use rows::{Engine, Ranked, Short, by_value};
