//! Runs the files and sinks of `outside`, in memory and of the system, and prints what each call answers and leaves: where
//! a call fails, where calls are short, and at the limits of a file's length.
#![tactic(auto)]

mod memory;
mod short;
mod system;

use anyhow::Result;

fn main(rt: HostRuntime) -> Result<()> {
    println!(rt; "# files in memory")?;
    memory::failing_reads(&rt)?;
    memory::limits(&rt)?;
    memory::failing_writes(&rt)?;
    memory::sure_files(&rt)?;
    println!(rt; "# sinks in memory")?;
    memory::failing_sinks(&rt)?;
    println!(rt; "# files of the system")?;
    let folder = system::new_folder(&rt)?;
    let outcome = system::all(&rt, &folder);
    std::fs::remove_dir_all(&rt, folder.as_str())?;
    outcome
}
