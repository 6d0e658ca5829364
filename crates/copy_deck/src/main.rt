// Copies a deck: reads it and writes its cards anew, with spares that are 0, or the line of its refusal.
// What is made, `maker` says.
#![tactic(auto)]

use maker::Asked;

// One line, as that of each program of its kind: a program is a crate.
fn main(rt: HostRuntime) {
    maker::make(&mut rt.stdin(), &mut rt.stdout(), Asked::Copy);
}
