use crate::{Command, command_of};
use std::test::Fail;

#[test]
fn words_of_a_run_are_read(rt: HostRuntime) -> Result<(), Fail> {
    let words = ["16".to_string(rt.alloc())?];
    let blocks = match command_of(rt.alloc(), "run", &words)? {
        Command::Run(blocks) => blocks,
        _ => 0,
    };
    assert_eq!(rt; blocks, 16);
    Ok(())
}
