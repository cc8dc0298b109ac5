//! Lines of bytes.
ghost use Rattle.std.specs.Prelude.{◌≡◌};
ghost use Rattle.rds_lines.specs.Lines.{after_line, until_newline};

/// The first line of the bytes, without its newline, and what follows it. Where there is no
/// newline all of them are the line.
pub fn split_line(bytes: &[u8]) -> (&[u8], &[u8])
    ensures line { result.0.now ≡ until_newline bytes.now }
    ensures rest { result.1.now ≡ after_line bytes.now }
{
    for (i, byte) in bytes.iter().enumerate() {
        if *byte == b'\n' {
            return (&bytes[..i], &bytes[i + 1..]);
        }
    }
    (bytes, &[])
}
