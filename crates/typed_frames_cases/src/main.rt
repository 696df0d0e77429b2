// Further cases of Eight Frames of typed rules: a title, then the eight lines; of a garbled text also what standard error gets.
#![tactic(auto)]

use limits::MOST_TEXT;
use typed_text::{DIAGNOSIS_LENGTH, Diagnosis, diagnose};

// The length of a first line: "line 1, column 4097: the text ends short" and the newline.
const FIRST_LINE: usize = 41;

// The records of so many atoms with & between them are one too many.
const OVERLONG_ATOMS: usize = 129;

// So many lines are one too many.
const CROWDED_LINES: usize = 65;

// Where a text is garbled; at most so many bytes of it.
fn show_place<P: Print>(rt: &P, rules: &[u8], at: usize, most: usize) {
    let mut place = Diagnosis::new();
    diagnose(&mut place, rules, at);
    let _ = rt.write_all(&place[..most.min(place.len())]);
}

// The title, the eight lines, and at most so many bytes of where the text is garbled.
fn show_most<P: Print>(rt: &P, title: &str, rules: &[u8], most: usize) {
    let (lines, shown) = typed_text::show(rules);
    let _ = rt.println(title);
    let _ = rt.write_all(&lines);
    if let Some(at) = shown.unreadable_at {
        show_place(rt, rules, at as usize, most);
    }
}

fn show<P: Print>(rt: &P, title: &str, rules: &[u8]) {
    show_most(rt, title, rules, DIAGNOSIS_LENGTH);
}

fn show_taken<P: Print>(rt: &P) {
    show(rt, "blank: no byte", b"");
    show(rt, "blank: three spaces", b"   ");
    show(rt, "spaces around tokens", b"  a0  &a1 \n ");
    show(rt, "README.md's example", b"a0 => a1\n~[](a0 => a1)\n");
}

fn show_invalid<P: Print>(rt: &P) {
    show(rt, "a byte of no token", b"a0 & x\n");
    show(rt, "a tab", b"a0\t& a1\n");
    show(rt, "a carriage return", b"a0\r\n");
    show(rt, "a backslash", b"a0 \\ a1\n");
    show(rt, "a byte above 127", b"a0 & \xe9\xff\n");
    show(rt, "a name without digits", b"a0 & a\n");
    show(rt, "a leading zero", b"a01\n");
    show(rt, "no atom's number", b"a0 -> a65536\n");
}

fn show_cut<P: Print>(rt: &P) {
    show(rt, "a box cut off", b"[ ]a0\n");
    show(rt, "an arrow cut off", b"a0 -");
    show(rt, "a double arrow cut off", b"a0 = a1\n");
    show(rt, "<-> cut off", b"a0 <- a1\n");
}

fn show_order<P: Print>(rt: &P) {
    show(rt, "two joints", b"a0\na0 & | a1\n");
    show(rt, "two atoms", b"a0 a1\n");
    show(rt, "brackets around nothing", b"()\n");
    show(rt, "a bracket that was not opened", b"a0)\n");
    show(rt, "a newline in brackets", b"(a0\n& a1)\n");
    show(rt, "an empty line", b"a0\n\na1\n");
    show(rt, "an empty first line", b"\na0\n");
    show(rt, "no newline at the end", b"a0\na0 & a1");
    show(rt, "a bracket that is not closed", b"(a0");
}

// A text of three bytes, again and again, as often as it has room, with a newline at its end.
fn repeat(text: &mut [u8], part: &[u8; 3]) {
    for chunk in text.chunks_exact_mut(3) {
        chunk.copy_from_slice(part);
    }
    if let Some(last) = text.last_mut() {
        *last = b'\n';
    }
}

fn show_long<P: Print>(rt: &P) {
    let brackets = [b'('; MOST_TEXT];
    show_most(
        rt,
        "4,096 open brackets: the first line",
        &brackets,
        FIRST_LINE,
    );
    let spaces = [b' '; MOST_TEXT];
    show(rt, "blank: 4,096 spaces", &spaces);
    let more = [b'('; MOST_TEXT + 1];
    show(rt, "long slip: 4,097 bytes", &more);
    let mut records = [0u8; 3 * OVERLONG_ATOMS];
    repeat(&mut records, b"a0&");
    show(rt, "overlong: 257 records", &records);
    let mut lines = [0u8; 3 * CROWDED_LINES];
    repeat(&mut lines, b"a0\n");
    show(rt, "crowded: 65 lines", &lines);
}

fn main(rt: HostRuntime) {
    show_taken(&rt);
    show_invalid(&rt);
    show_cut(&rt);
    show_order(&rt);
    show_long(&rt);
}
