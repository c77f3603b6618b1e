// Lines of a text, taken off its front one by one. Uses nothing.
// Promises: which bytes a line has, and what stands behind it.
#![tactic(auto)]

ghost use Rattle.std.specs.Prelude.{◌≡◌, ◌<◌, length};
ghost use Rattle.lines.specs.Lines.{until_feed, past_feed, Divided, FirstLine};

// The first line without its line feed, and what stands behind that line feed.
pub fn first_line(text: &[u8]) -> (&[u8], &[u8])
    ensures content { result.0.now ≡ until_feed text.now }
    ensures behind { result.1.now ≡ past_feed text.now }
    ensures divides { Divided text.now result.0.now result.1.now }
    ensures first { 0 < length text.now → FirstLine text.now }
    ensures shorter { 0 < length text.now → length result.1.now < length text.now }
{
    match text.iter().position(|b| *b == b'\n') {
        Some(i) => (&text[..i], &text[i + 1..]),
        None => (text, &[]),
    }
}
