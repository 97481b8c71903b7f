ghost use Rattle.std.specs.Prelude.{◌≡◌, ◌<◌, ◌==◌, ◌∷◌, length, vec_capacity};
ghost use Rattle.std.specs.Iterator.{YieldsFirstRef, item_count};
ghost use Rattle.script.specs.Scripts.{Scripted, lines};
ghost use Rattle.script.specs.Standing.{ScriptStands};

use crate::desk::Desk;
use crate::movable::Movable;
use std::alloc::AllocError;

/// How many bytes of a script count. Those after them are not looked at (docs/TALLY.md, section 1).
pub const LONGEST_SCRIPT: usize = 32_768;

/// Runs the lines of a script on the desk, and appends to `out` what is printed for them.
/// It fails only where `out` has no capacity left for that and there is no memory for more.
pub fn run_script<K: Movable>(
    desk: &mut Desk<K>,
    input: &[u8],
    out: &mut Vec<u8>,
) -> Result<(), AllocError>
    ensures does { Scripted K.means desk.old input.now out.old.items (vec_capacity out.old) result desk.new out.new.items }

    // Where the desk stood at the end of a run, it now stands at the end of that run plus the calls made here.
    // Each figure that is printed is what the run counts.
    ensures stands { ScriptStands K.means desk.old input.now out.old.items (vec_capacity out.old) result desk.new out.new.items }
{
    let text = &input[..input.len().min(LONGEST_SCRIPT)];
    for (index, line) in (Lines { text }).enumerate() {
        let (_, sheet) = desk.run(index, line);
        out.extend_from_slice(sheet.as_slice())?;
    }
    Ok(())
}

// The lines of what is left of a text.
#[derive(Drop)]
struct Lines<'a> {
    text: &'a [u8],
}

impl<'a> Iterator for Lines<'a> {
    type Item = &'a [u8];

    ghost next_gives = { YieldsFirstRef (λ s. lines s.text.now) };

    ghost remaining = { item_count (λ s. lines s.text.now) };

    fn next(&mut self) -> Option<&'a [u8]> {
        if self.text.is_empty() {
            return None;
        }
        let (line, after) = split_line(self.text);
        self.text = after;
        Some(line)
    }
}

// The first line, without the byte that ends it, and what comes after that byte.
fn split_line(text: &[u8]) -> (&[u8], &[u8])
    requires { 0 < length text.now }
    ensures lines { lines text.now ≡ result.0.now ∷ lines result.1.now }
{
    match text.iter().position(|byte| ends_line(*byte)) {
        Some(end) => (&text[..end], &text[end + 1..]),
        None => (text, &[]),
    }
}

// Whether the byte ends a line.
fn ends_line(byte: u8) -> bool
    ensures { result ≡ (byte == 10) }
{
    byte == b'\n'
}
