ghost use Rattle.std.specs.Prelude.{◌≡◌, ◌++◌, ◌∷◌, [], IfOk, string_bytes};

use std::alloc::AllocError;

/// The line of a text: the text and a line feed.
pub fn as_line(mut text: String) -> Result<String, AllocError>
    ensures { IfOk result (λ line. string_bytes line ≡ string_bytes text ++ 10 ∷ []) }
{
    text.push('\n')?;
    Ok(text)
}
