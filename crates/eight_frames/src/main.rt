// Eight Frames: records on standard input, a line for each of the flags 0 to 7 on standard output.
#![tactic(auto)]

// The programs frames_* have this main too: the gate runs a program with one input.
fn main(rt: HostRuntime) {
    let mut kept = frames::Kept::new();
    let mut text = frames::Lines::new();
    let _ = frames::run(
        frames::word_count(&rt),
        &mut rt.stdin(),
        &mut rt.stdout(),
        &mut rt.stderr(),
        &mut kept,
        &mut text,
    );
}
