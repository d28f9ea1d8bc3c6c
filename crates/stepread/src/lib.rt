// Steps read from lines, and judged. A reader guesses a step for each line; the lines of the guessed steps are then written and compared with the text, so what is
// judged are the steps whose lines the text is, whatever the guess.
#![tactic(auto)]

ghost use Rattle.std.specs.Prelude.{◌≡◌, ◌+◌, ◌≤◌, length, take, IfNone};
ghost use Rattle.text.specs.Text.{Put};
ghost use Rattle.steplines.specs.Lines.{step_lines};
ghost use Rattle.stepread.specs.Reading.{no_step_line, many_line, Replied};

use plans::answers::Step;
use plans::check_plan;
use records::Form;
use steplines::{put_judged, put_steps};
use text::{put_bytes, put_last};

// How many lines are ended in a text.
fn line_feeds(text: &[u8]) -> usize
    ensures { result ≤ length text.now }
{
    text.iter().filter(|byte| **byte == b'\n').count()
}

// The step of a line so far, and a digit more: the number that is being read stands in the hop.
fn with_digit(step: Step, digit: u8) -> Step {
    let number = (step.hop as u32) * 10 + (digit as u32);
    Step {
        hop: (number % 256) as u8,
        ..step
    }
}

// The number is the next octet of the address.
fn with_octet(step: Step) -> Step {
    Step {
        addr: step.addr % 16777216 * 256 + (step.hop as u32),
        hop: 0,
        ..step
    }
}

// The number is the length.
fn with_length(step: Step) -> Step {
    Step {
        len: step.hop,
        hop: 0,
        ..step
    }
}

// The line ends: the last number of a put is its hop, that of a take its length.
fn ended(step: Step) -> Step {
    if step.put == 0 {
        with_length(step)
    } else {
        step
    }
}

// The step of a line so far, and a byte more.
fn with_byte(step: Step, byte: u8) -> Step {
    match byte {
        b'0'..=b'9' => with_digit(step, byte - b'0'),
        b'\n' => ended(step),
        b' ' => with_length(step),
        b'.' | b'/' => with_octet(step),
        b'p' => Step { put: 1, ..step },
        _ => step,
    }
}

// Guesses a step for each line of a text: the line's, where it is the line of one.
fn guess(text: &[u8], steps: &mut [Step]) {
    let mut line: usize = 0;
    for byte in text {
        if line < steps.len() {
            steps[line] = with_byte(steps[line], *byte);
        }
        if *byte == b'\n' {
            line += 1;
        }
    }
}

// How many bytes two texts have in common at their beginning.
fn common(a: &[u8], b: &[u8]) -> usize
    ensures { (result ≤ length a.now) × (result ≤ length b.now) × (take result a.now ≡ take result b.now) }
{
    for (i, byte) in a.iter().enumerate() {
        if b.len() <= i || b[i] != *byte {
            return i;
        }
    }
    a.len()
}

// The line of a place, counted from 1.
fn line_at(text: &[u8], at: usize) -> usize
    requires { at ≤ length text.now }
    ensures { 1 ≤ result }
{
    line_feeds(&text[..at]) + 1
}

// The first line of a text, counted from 1, that is not that of its step; None where the text is the lines of the steps.
fn wrong_line(steps: &[Step], text: &[u8]) -> Option<usize>
    requires { length steps.now ≤ 2048 }
    ensures { IfNone result (text.now ≡ step_lines steps.now) }
{
    let mut lines = [0u8; 59392];
    let end = put_steps(steps, 0, &mut lines);
    let same = common(&lines[..end], text);
    if same == end && same == text.len() {
        return None;
    }
    Some(line_at(text, same))
}

// The line `no step in line N`.
fn put_no_step(line: usize, at: usize, out: &mut [u8]) -> usize
    requires { at + 37 ≤ length out.old }
    ensures { Put (no_step_line line) at result out.old out.new }
{
    let end = put_bytes(b"no step in line ", at, out);
    put_last(line as u64, end, out)
}

// The text of the checker's answer, where a text is the lines of these steps; else the line that is none.
fn put_reply(
    installed: &[u8],
    new: &[u8],
    form: Form,
    steps: &[Step],
    text: &[u8],
    out: &mut [u8],
) -> usize
    requires few { length steps.now ≤ 2048 }
    requires in_bounds { 37 ≤ length out.old }
    ensures replied { Replied form installed.now new.now text.now result out.old out.new }
    ensures upper_bound { result ≤ length out.old }
{
    match wrong_line(steps, text) {
        Some(line) => put_no_step(line, 0, out),
        None => put_judged(check_plan(installed, new, form, steps), 0, out),
    }
}

// The text of the checker's answer to the steps whose lines a text is, at most 2,048; else what is wrong with the text.
pub fn reply(installed: &[u8], new: &[u8], form: Form, text: &[u8], out: &mut [u8]) -> usize
    requires { 37 ≤ length out.old }
    ensures replied { Replied form installed.now new.now text.now result out.old out.new }
    ensures upper_bound { result ≤ length out.old }
{
    let n = line_feeds(text);
    if 2048 < n {
        return put_bytes(b"more than 2048 steps\n", 0, out);
    }
    let mut room = [Step {
        addr: 0,
        len: 0,
        hop: 0,
        put: 0,
        unread: 0,
    }; 2048];
    let steps = &mut room[..n];
    guess(text, steps);
    put_reply(installed, new, form, steps, text, out)
}
