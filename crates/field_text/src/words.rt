ghost use Rattle.std.specs.Prelude.{◌≡◌, nat_eq, bytes_eq, map, find};
ghost use Rattle.std.specs.List.{list_any, starts_with};
ghost use Rattle.std.specs.Option.{option_map};
ghost use Rattle.spec_flow_text.specs.Names as names;

/// Whether a text is one of these words.
pub fn is_one_of(words: &[&str], text: &[u8]) -> bool
    ensures { result ≡ list_any (λ word. bytes_eq word.now text.now) words.now }
{
    words.iter().any(|word| word.as_bytes() == text)
}

/// Whether a text begins with one of these.
pub fn begins_with_one_of(starts: &[&str], text: &[u8]) -> bool
    ensures { result ≡ list_any (λ start. starts_with nat_eq text.now start.now) starts.now }
{
    starts
        .iter()
        .any(|start| text.starts_with(start.as_bytes()))
}

fn found<T: Copy>(table: &[(&str, T)], text: &[u8]) -> Option<T>
    ensures { result
        ≡ option_map (λ row. row.1) (find (λ row. bytes_eq row.0.now text.now) table.now) }
{
    table
        .iter()
        .find(|row| row.0.as_bytes() == text)
        .map(|row| row.1)
}

/// What a table says of a word.
pub fn meaning_of<T: Copy>(table: &[(&str, T)], text: &[u8]) -> Option<T>
    ensures { result ≡ names.meaning_of (map (λ row. (row.0.now, row.1)) table.now) text.now }
{
    found(table, text)
}
