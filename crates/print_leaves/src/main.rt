// The leaf printer: prints the leaves of the image on standard input.
#![tactic(auto)]

use std::io;

fn main(rt: HostRuntime) -> io::Result<()> {
    print_pages::output::print(&mut rt.stdin(), &mut rt.stdout())
}
