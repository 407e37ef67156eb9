//! A text laid over bytes.

ghost use Rattle.std.specs.Prelude.{◌≡◌};
ghost use Rattle.writeable_bytes.specs.Laid.{laid_from};

// Lays the text over the bytes from an index on, as far as they reach: `,b` from 1 over `....` gives `.,b.`, and over
// `..` gives `.,`.
pub(crate) fn lay(out: &mut [u8], from: usize, text: &[u8])
    ensures { out.new ≡ laid_from from text.now out.old }
{
    if from >= out.len() {
        return;
    }
    let room = out.len() - from;
    if text.len() <= room {
        let end = from + text.len();
        out[from..end].copy_from_slice(text);
    } else {
        out[from..].copy_from_slice(&text[..room]);
    }
}
