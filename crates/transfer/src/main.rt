// Finds the velocity from one position to another: reads 72-byte transfers, the rules' mu, r1, r2, dt as
// words, the limit and the way, and writes a line for each. What a line is, `line` says.
#![tactic(auto)]

use line::Question;

// One line, as that of each program of its kind: a program is a crate.
fn main(rt: HostRuntime) {
    records::list(&mut rt.stdin(), &mut rt.stdout(), Question::Transfer);
}
