// The second line that the program prints: "the four entries and the held digit or `-`" (document 01, "The program").
#![tactic(auto)]

ghost use Rattle.std.specs.Prelude.{[], ◌∷◌, ◌++◌, ◌+◌, ◌≤◌, length};
ghost use Rattle.text.specs.Wrote.{Wrote};
ghost use Rattle.state_line.specs.StateLine.{held_text, state_line_of};

use states::State;

// The line's last field, and its end.
fn put_held(out: &mut [u8], at: usize, held: Option<u8>) -> usize
    requires { at + 21 ≤ length out.old }
    ensures { Wrote out.old at (held_text held ++ (10 ∷ [])) 21 out.new result }
{
    match held {
        None => text::put_text(out, at, b"-\n"),
        Some(d) => text::put_field(out, at, d as u64, b'\n'),
    }
}

// The line.
pub fn put_state(out: &mut [u8], at: usize, s: State) -> usize
    requires { at + 109 ≤ length out.old }
    ensures { Wrote out.old at (state_line_of s) 109 out.new result }
{
    let mut p = at;
    for entry in s.matrix {
        p = text::put_signed(out, p, entry, b' ');
    }
    put_held(out, p, s.held)
}
