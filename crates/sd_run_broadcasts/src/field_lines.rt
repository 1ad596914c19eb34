ghost use Rattle.std.specs.Prelude.{◌≡◌, ◌<◌, ◌^◌, ◌++◌, ◌/◌, None, string_bytes, length, IfOk, OnOk};
ghost use Rattle.sd_run_broadcasts.specs.Field.{digest_of as digest_text, first_line as line_of, lines_of_field};
ghost use Rattle.sd_run_broadcasts.specs.Field.{field_receiver_line};
ghost use Rattle.sd_field.specs.Fields.{written_of};

use sd_field::Field;
use sd_packet::SIZE;
use sd_tree_keys::{Height, Leaf};
use sha2::{Digest, Sha256};
use std::alloc::{AllocError, Global};
use std::fmt::Write;

/// The number of bytes of a digest that are printed.
const SHOWN: usize = 16;

/// The lines of a field: what was sent, and then for each leaf what its receivers wrote [this project, docs/FORMATS.md,
/// Field].
pub fn lines(alloc: Global, field: &Field, h: Height) -> Result<String, AllocError>
    requires height { h ≡ field.now.site.height }
    requires calm { field.now.failed ≡ None }
    ensures { IfOk result (λ text. string_bytes text ≡ lines_of_field field.now (2 ^ h)) }
{
    let packets = field.sent().len() / SIZE;
    let mut text = first_line(alloc, field.sends(), packets, field.book().last_period())?;
    let mut last: &[u8] = &[];
    let mut digest = digest_of(alloc, last)?;
    for u in 0..h.leaves() {
        let wrote = written(field, h, u);
        digest = digest_beside(alloc, wrote, last, digest)?;
        last = wrote;
        push_line(&mut text, u, wrote, digest.as_str())?;
    }
    Ok(text)
}

/// The line of the number of sends, the number of packets that were sent, and the book's last period.
#[tactic(auto, unfolding(crate::specs::Field::first_line))]
fn first_line(alloc: Global, sends: u64, packets: usize, period: u32) -> Result<String, AllocError>
    ensures { IfOk result (λ text. string_bytes text ≡ line_of sends packets period) }
{
    format!(in alloc; "sends {sends} packets {packets} period {period}\n")
}

/// What leaf u's receivers wrote.
fn written(field: &Field, h: Height, u: u32) -> &[u8]
    requires leaf { u < 2 ^ h }
    requires height { h ≡ field.now.site.height }
    requires calm { field.now.failed ≡ None }
    ensures { result.now ≡ written_of u field.now }
{
    let Some(leaf) = Leaf::new(h, u) else {
        unreachable!();
    };
    field.written(leaf)
}

/// The digest of some bytes, if that of other ones is known: often receivers wrote the same.
fn digest_beside(
    alloc: Global,
    bytes: &[u8],
    others: &[u8],
    known: String,
) -> Result<String, AllocError>
    requires { string_bytes known ≡ digest_text others.now }
    ensures { IfOk result (λ text. string_bytes text ≡ digest_text bytes.now) }
{
    if bytes == others {
        return Ok(known);
    }
    digest_of(alloc, bytes)
}

/// The digest of some bytes as it is printed: the first 16 bytes of the SHA-256, in hexadecimal.
#[tactic(auto, unfolding(crate::specs::Field::digest_of))]
fn digest_of(alloc: Global, bytes: &[u8]) -> Result<String, AllocError>
    ensures { IfOk result (λ text. string_bytes text ≡ digest_text bytes.now) }
{
    let digest = Sha256::digest(bytes);
    hex::encode(alloc, &digest[..SHOWN])
}

/// Puts the line of leaf u after the text, whose receivers wrote these bytes, with this digest.
#[tactic(auto, unfolding(crate::specs::Field::field_receiver_line))]
fn push_line(text: &mut String, u: u32, wrote: &[u8], digest: &str) -> Result<(), AllocError>
    ensures { OnOk result (string_bytes text.new
        ≡ string_bytes text.old ++ field_receiver_line u (length wrote.now / 188) digest.now) }
{
    let packets = wrote.len() / SIZE;
    Ok(write!(text, "receiver {u} wrote {packets} digest {digest}\n")?)
}
