// The converter: reads a variant byte, a gain byte and a WAV file from standard input and writes the SQV4 stream to standard output, or
// the line of a refusal. commands::convert says what is written.
#![tactic(auto)]

use std::io;

fn main(rt: HostRuntime) -> io::Result<()> {
    commands::run(rt.stdin(), &mut rt.stdout(), commands::convert)
}
