// The lines of a text, and the words of a line.
ghost use Rattle.std.specs.Prelude.{◌≡◌, ◌<◌, ◌≤◌, ◌∷◌, ◌==◌, length, not, IfSome, IfNone, IsTrue};
ghost use Rattle.std.specs.List.{prefix_len};
ghost use Rattle.pyr_bundletext.specs.Reading.{lacks, split, words_of, IsCut};

// How many bytes stand before the first one of this value, or in all.
fn len_before(text: &[u8], end: u8) -> usize
    ensures exact { result ≡ prefix_len (λ b. not (b == end)) text.now }
    ensures within { result ≤ length text.now }
{
    text.iter().take_while(|byte| **byte != end).count()
}

/// The first line of a text without its line feed, and the text behind it; `None` where no line
/// feed stands in the text.
pub fn first_line(text: &[u8]) -> Option<(&[u8], &[u8])>
    ensures cut { IfSome result (λ parts. IsCut text.now parts.0.now parts.1.now) }
    ensures none { IfNone result (IsTrue (lacks 10 text.now)) }
{
    let len = len_before(text, b'\n');
    if len == text.len() {
        return None;
    }
    Some((&text[..len], &text[len + 1..]))
}

/// The first word of a line, and what stands behind its space; `None` where no space stands in the
/// line.
pub fn first_word(line: &[u8]) -> (&[u8], Option<&[u8]>)
    ensures words { split line.now ≡ result.0.now ∷ words_of result.1 }
    ensures shorter { IfSome result.1 (λ rest. length rest.now < length line.now) }
{
    let len = len_before(line, b' ');
    if len == line.len() {
        return (line, None);
    }
    (&line[..len], Some(&line[len + 1..]))
}
