// Reads commands from standard input, and writes their transcript to standard output. One byte more than the limit is read, so that a longer input
// is told from one that fits. What could not be read is not run, and what failed is said in a line on standard error.
#![tactic(auto)]

use descriptors::input::read_input;
use descriptors::output::write_whole;

// An error is the line that says what failed.
fn transcribe(rt: &HostRuntime) -> Result<(), &'static str> {
    let mut input = [0u8; stream::INPUT + 1];
    let mut output = [0u8; stream::ROOM];
    let n = read_input(&mut rt.stdin(), &mut input).map_err(
        |_| "realign: standard input could not be read\n",
    )?;
    let end = stream::run(&input[..n], &mut output);
    write_whole(&mut rt.stdout(), &output[..end]).map_err(
        |_| "realign: standard output could not be written\n",
    )
}

fn main(rt: HostRuntime) {
    if let Err(line) = transcribe(&rt) {
        // Written as the transcript is: an interrupted call is made again. Where it fails too, nothing is left to say.
        let _ = write_whole(&mut rt.stderr(), line.as_bytes());
    }
}
