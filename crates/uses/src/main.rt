//! Shows each public call of `Engine`, `Plain`, `Hub` and `run_script` by a small example.
//!
//! Each example prints its name and a few values, which a reader can check by hand.
#![tactic(auto)]

mod engine;
mod fixture;
mod hubs;
mod plain;
mod script;
mod stop;

use crate::stop::Stop;

fn main(rt: HostRuntime) -> Result<(), Stop> {
    let alloc = rt.alloc();
    engine::show_calls(&rt, alloc)?;
    engine::show_turns(&rt, alloc)?;
    engine::show_forgetting(&rt, alloc)?;
    plain::show_all(&rt, alloc)?;
    hubs::show_calls(&rt, alloc)?;
    hubs::show_turns(&rt, alloc)?;
    hubs::show_history(&rt, alloc)?;
    script::show_all(&rt, alloc)
}
