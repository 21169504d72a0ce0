//! Reads texts from standard input, one to a line, and writes for each its refusal or its tree. A `~` stands for a line feed.

#![tactic(auto)]

use reading::{Entry, read};
use showing::{Layout, read_text, show, write_refusal};
use std::io;

/// The most bytes of all texts.
const INPUT_MAX: usize = 32768;

/// The slots of a tree table.
const SLOTS: usize = 2048;

// Writes the number of a text, and its refusal or its tree.
fn answer<'t>(
    rt: &HostRuntime,
    number: usize,
    text: &'t [u8],
    slots: &'t mut [Entry],
) -> io::Result<()> {
    print!(rt; "{number}: ")?;
    match read(text, slots) {
        Ok(draft) => {
            let shown = show(rt, &draft, Layout::Nested);
            // A draft is not dropped: it gives its slots back.
            let _ = draft.release();
            shown?;
        }
        Err((refusal, _)) => write_refusal(rt, refusal.into())?,
    }
    println!(rt; "")
}

// Answers each line that ends in a line feed.
fn answers(rt: &HostRuntime, input: &mut [u8]) -> io::Result<()> {
    let lines = input.split_inclusive_mut(|byte| *byte == b'\n');
    for (number, line) in (1..).zip(lines) {
        if let [text @ .., b'\n'] = line {
            for byte in text.iter_mut() {
                if *byte == b'~' {
                    *byte = b'\n';
                }
            }
            // Here and not in `answer`: each call of a function clears its locals.
            let mut slots = [Entry::Empty; SLOTS];
            answer(rt, number, text, &mut slots)?;
        }
    }
    Ok(())
}

fn main(rt: HostRuntime) -> io::Result<()> {
    let mut input = [0; INPUT_MAX];
    let n = read_text(&rt, &mut input)?;
    answers(&rt, &mut input[..n])
}
