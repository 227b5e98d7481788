//! A benchmark of the search over one net: makes a grid of wires with ten arcs from each, whose side the first word says,
//! searches as many paths between near wires as the second word says, then connects a net of as many sinks as the third
//! word says, 14 wires apart, each found wire joining the tree. Prints what was found; time it from outside.
#![tactic(auto)]

mod arcs;
mod net;
mod runs;
mod tree;

use anyhow::{Context, Result};
use runs::{near_paths, wide_net};
use std::env;

// The number that a word of the command line is.
fn number_of(word: Option<String>) -> Result<u32> {
    let Some(word) = word else {
        return Ok(40);
    };
    let number = word.parse::<u32>().context("a number is wanted")?;
    Ok(number)
}

fn main(rt: HostRuntime) -> Result<()> {
    let mut words = env::args(&rt)?.skip(1);
    let side = number_of(words.next())?.clamp(40, 4000);
    let searches = number_of(words.next())?;
    let sinks = number_of(words.next())?;
    let near = near_paths(rt.alloc(), side, searches)?;
    let (paths, arcs) = (near.paths, near.arcs);
    println!(rt; "near wires: paths {paths} arcs {arcs}")?;
    let wide = wide_net(rt.alloc(), side, sinks)?;
    let (paths, arcs) = (wide.paths, wide.arcs);
    println!(rt; "wide net: paths {paths} arcs {arcs}")?;
    Ok(())
}
