// The same program as the console, run on long scripts.
#![tactic(auto)]

use std::io;

fn main(rt: HostRuntime) -> io::Result<()> {
    shell::run(&rt)
}
