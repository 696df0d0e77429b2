// Eight Frames on an input that is longer than any branch and torn.
#![tactic(auto)]

// A program for this input alone, with the main of eight_frames: the gate runs a program with one input.
fn main(rt: HostRuntime) {
    let mut kept = frames::Kept::new();
    let mut text = frames::Lines::new();
    let _ = frames::run(
        frames::word_count(&rt),
        &mut rt.stdin(),
        &mut rt.stdout(),
        &mut rt.stderr(),
        &mut kept,
        &mut text,
    );
}
