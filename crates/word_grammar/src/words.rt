//! Words in a text, and what they share.
ghost use Rattle.std.specs.Prelude.{◌≡◌, ◌==◌, nat_eq, position};
ghost use Rattle.std.specs.List.{common_prefix_len};
ghost use Rattle.word_grammar.specs.Marks.{IsWordEnd};

/// The length of the first word of a text: the bytes before the first mark, or all (own). Takes no
/// memory.
pub fn word_end(text: &[u8], mark: u8) -> usize
    ensures { IsWordEnd mark text.now result }
{
    first_mark(text, mark).unwrap_or(text.len())
}

// The place of the first mark.
fn first_mark(text: &[u8], mark: u8) -> Option<usize>
    ensures { result ≡ position (λ byte. byte == mark) text.now }
{
    text.iter().position(|byte| *byte == mark)
}

/// How many bytes two texts share at their fronts (own). Takes no memory.
pub fn shared_front(a: &[u8], b: &[u8]) -> usize
    ensures { result ≡ common_prefix_len nat_eq a.now b.now }
{
    let most = a.len().min(b.len());
    for at in 0..most {
        if a[at] != b[at] {
            return at;
        }
    }
    most
}
