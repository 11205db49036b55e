// The inspector: reads an SQV4 stream from standard input and writes its report to standard output, or the line of a refusal.
// commands::report says what is written.
#![tactic(auto)]

use std::io;

fn main(rt: HostRuntime) -> io::Result<()> {
    commands::run(rt.stdin(), &mut rt.stdout(), commands::report)
}
