// Blanks: spaces, tabs, line feeds and carriage returns.
ghost use Rattle.std.specs.Prelude.{◌≡◌};
ghost use Rattle.template_text.specs.Parts.{is_blank, after_blanks, before_blanks, without_blanks};

fn is_blank(byte: u8) -> bool
    ensures { result ≡ is_blank byte }
{
    matches!(byte, b' ' | b'\t' | b'\n' | b'\r')
}

/// What follows the blanks at the front.
pub(crate) fn after_blanks(bytes: &[u8]) -> &[u8]
    ensures { result.now ≡ after_blanks bytes.now }
{
    for (i, byte) in bytes.iter().enumerate() {
        if !is_blank(*byte) {
            return &bytes[i..];
        }
    }
    &[]
}

// What stands before the blanks at the end.
fn before_blanks(text: &str) -> &str
    ensures { result.now ≡ before_blanks text.now }
{
    let bytes = text.as_bytes();
    let mut end = bytes.len();
    while end > 0 && is_blank(bytes[end - 1]) {
        end -= 1;
    }
    &text[..end]
}

/// The text without the blanks at its ends.
pub(crate) fn without_blanks(text: &str) -> &str
    ensures { result.now ≡ without_blanks text.now }
{
    let start = text.len() - after_blanks(text.as_bytes()).len();
    before_blanks(&text[start..])
}
