// The lines of a text.
ghost use Rattle.std.specs.Prelude.{◌≡◌, ◌+◌, ◌<◌, ◌≤◌, ◌∷◌, ◌==◌, drop, length, not};
ghost use Rattle.std.specs.List.{prefix_len};
ghost use Rattle.pyr_graphtext.specs.Lines.{lines};

// How many bytes stand before the first line feed, or in all.
fn line_len(text: &[u8]) -> usize
    ensures exact { result ≡ prefix_len (λ b. not (b == 10)) text.now }
    ensures within { result ≤ length text.now }
{
    text.iter().take_while(|byte| **byte != b'\n').count()
}

/// The first line of a text that isn't empty, and the text behind it.
pub fn first_line(text: &[u8]) -> (&[u8], &[u8])
    requires { 0 < length text.now }
    ensures cut { lines text.now ≡ result.0.now ∷ lines result.1.now }
    ensures shorter { length result.1.now < length text.now }
    ensures within { length result.0.now ≤ length text.now }
    ensures behind { result.1.now ≡ drop (length result.0.now + 1) text.now }
{
    let len = line_len(text);
    if len == text.len() {
        return (text, &[]);
    }
    (&text[..len], &text[len + 1..])
}
