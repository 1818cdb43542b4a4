// Operations on bad input: each of document 01's causes of number 5, by the table on standard input, and then random
// makings, calls and hops.
#![tactic(auto)]

mod bench;
mod causes;
mod draw;
mod operations;
mod random;
mod spoil;

use std::io;

fn main(rt: HostRuntime) -> io::Result<()> {
    causes::show(&rt)?;
    random::show(&rt)
}
