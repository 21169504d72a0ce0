//! Reads a rule from standard input and writes its refusal, or, as long as the later stages are missing, its tree.

#![tactic(auto)]

use reading::{Entry, read};
use showing::{Layout, read_text, show, write_refusal};
use std::io;

/// The most bytes of a rule.
const TEXT_MAX: usize = 2048;

fn main(rt: HostRuntime) -> io::Result<()> {
    let mut buffer = [0; TEXT_MAX + 1];
    let n = read_text(&rt, &mut buffer)?;
    let mut slots = [Entry::Empty; TEXT_MAX];
    match read(&buffer[..n], &mut slots) {
        Ok(draft) => {
            let shown = show(&rt, &draft, Layout::Lines);
            // A draft is not dropped: it gives its slots back.
            let _ = draft.release();
            shown
        }
        Err((refusal, _)) => write_refusal(&rt, refusal.into()),
    }
}
