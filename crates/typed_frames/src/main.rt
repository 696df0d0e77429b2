// Eight Frames of typed rules: a text on standard input, a line for each of the flags 0 to 7 on standard output.
#![tactic(auto)]

// The main of eight_frames over `typed_text`: a program of its own, since each takes standard input whole.
fn main(rt: HostRuntime) {
    let mut kept = typed_text::Kept::new();
    let mut text = frames::Lines::new();
    let _ = typed_text::run(
        frames::word_count(&rt),
        &mut rt.stdin(),
        &mut rt.stdout(),
        &mut rt.stderr(),
        &mut kept,
        &mut text,
    );
}
