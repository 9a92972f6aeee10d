// Bytes up to a mark: the fields of a line, the lines of a block.
ghost use Rattle.std.specs.Prelude.{◌≡◌, ◌+◌, length, drop};
ghost use Rattle.text.specs.Spans.{until};

// Where the bytes from a place on end: at the next mark, or where s ends.
// A place beside s and no slice: the promise is of places past the end too, where `from` comes back.
pub fn end_of(s: &[u8], from: usize, mark: u8) -> usize
    ensures { result ≡ from + length (until mark (drop from s.now)) }
{
    let rest = s.get(from..).unwrap_or(&[]);
    from + rest.iter().take_while(|&&b| b != mark).count()
}
