// The console: reads commands, one a line, and answers each.
#![tactic(auto)]

use std::io;

fn main(rt: HostRuntime) -> io::Result<()> {
    shell::run(&rt)
}
