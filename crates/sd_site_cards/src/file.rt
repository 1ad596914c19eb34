ghost use Rattle.std.specs.Prelude.{◌≡◌, ◌+◌, ◌^◌, ◌<◌, ◌≤◌, ◌++◌, IfOk, OnOk, length};
ghost use Rattle.byteorder.specs.Endian.{big_bytes};
ghost use Rattle.sd_site_cards.specs.Files.{AreSecrets, AreKeptSecrets, byte_at as byte_of, number_from};
ghost use Rattle.sd_site_cards.specs.Files.{check_of as check_of_bytes, check_in, check_due, card_file_head, file_body};
ghost use Rattle.sd_site_cards.specs.Files.{file_bytes};

use byteorder::{BigEndian, ByteOrder};
use sd_tree_keys::Leaf;
use sha2::{Digest, Sha256};
use std::alloc::{AllocError, Global};

/// The bytes of a secret.
pub const SECRET_BYTES: usize = 32;

/// The bytes of the check at a file's end.
pub const CHECK_BYTES: usize = 16;

/// A byte of a file; one that isn't there counts as 0.
pub fn byte_at(bytes: &[u8], k: usize) -> u8
    ensures { result ≡ byte_of bytes.now k }
{
    bytes.get(k).copied().unwrap_or(0)
}

/// The number in the two bytes of a file from this place on, the high one first.
#[tactic(auto, unfolding(crate::specs::Files::number_from))]
pub fn two_at(bytes: &[u8], k: usize) -> u16
    requires { k < 2 ^ 32 }
    ensures { result ≡ number_from bytes.now k 2 }
{
    BigEndian::read_u16(&[byte_at(bytes, k), byte_at(bytes, k + 1)])
}

/// The number in the four bytes of a file from this place on, the high one first.
#[tactic(auto, unfolding(crate::specs::Files::number_from))]
pub fn four_at(bytes: &[u8], k: usize) -> u32
    requires { k < 2 ^ 32 }
    ensures { result ≡ number_from bytes.now k 4 }
{
    BigEndian::read_u32(&[
        byte_at(bytes, k),
        byte_at(bytes, k + 1),
        byte_at(bytes, k + 2),
        byte_at(bytes, k + 3),
    ])
}

// The four bytes of a number, the high one first.
fn four_bytes(n: u32) -> [u8; 4]
    ensures { result ≡ big_bytes 4 n }
{
    let mut bytes = [0; 4];
    BigEndian::write_u32(&mut bytes, n);
    bytes
}

// The two bytes of a number, the high one first.
fn two_bytes(n: u16) -> [u8; 2]
    ensures value { result ≡ big_bytes 2 n }
    ensures fits { n < 2 ^ 16 }
{
    let mut bytes = [0; 2];
    BigEndian::write_u16(&mut bytes, n);
    bytes
}

// The check of the bytes before it.
#[tactic(auto, unfolding(crate::specs::Files::check_of))]
fn check_of(body: &[u8]) -> [u8; 16]
    ensures { result ≡ check_of_bytes body.now }
{
    let digest = Sha256::digest(body);
    let mut check = [0; CHECK_BYTES];
    check.copy_from_slice(&digest[..CHECK_BYTES]);
    check
}

/// The check that a file ends with, and the one that is due: that of all before.
#[tactic(auto, unfolding(crate::specs::Files::check_in, crate::specs::Files::check_due))]
pub fn checks(bytes: &[u8]) -> ([u8; 16], [u8; 16])
    requires { CHECK_BYTES ≤ length bytes.now }
    ensures found { result.0 ≡ check_in bytes.now }
    ensures due { result.1 ≡ check_due bytes.now }
{
    let (body, end) = bytes.split_at(bytes.len() - CHECK_BYTES);
    let mut found = [0; CHECK_BYTES];
    found.copy_from_slice(end);
    (found, check_of(body))
}

/// The secrets that a file keeps from this place on, as many as are whole before its check.
pub fn secrets_in(alloc: Global, bytes: &[u8], k: usize) -> Result<Vec<[u8; 32]>, AllocError>
    requires { k + CHECK_BYTES ≤ length bytes.now }
    ensures { IfOk result (λ secrets. AreKeptSecrets bytes.now k secrets.items) }
{
    let inner = &bytes[k..bytes.len() - CHECK_BYTES];
    let mut secrets = Vec::new(alloc);
    for n in 0..inner.len() / SECRET_BYTES {
        let mut secret = [0; SECRET_BYTES];
        secret.copy_from_slice(&inner[SECRET_BYTES * n..SECRET_BYTES * n + SECRET_BYTES]);
        secrets.push(secret)?;
    }
    Ok(secrets)
}

/// The head of a card's file: the bytes that say what it is, fields of a byte each, the leaf and the conditional access
/// system.
pub fn write_head(
    alloc: Global,
    magic: &[u8; 4],
    fields: &[u8],
    leaf: Leaf,
    ca: u16,
) -> Result<Vec<u8>, AllocError>
    ensures value { IfOk result (λ bytes. bytes.items ≡ card_file_head magic.now fields.now leaf ca) }
    ensures fits { IfOk result (λ _. ca < 2 ^ 16) }
{
    let mut bytes = Vec::new(alloc);
    bytes.extend_from_slice(magic)?;
    bytes.extend_from_slice(fields)?;
    bytes.extend_from_slice(&four_bytes(leaf.get()))?;
    bytes.extend_from_slice(&two_bytes(ca))?;
    Ok(bytes)
}

/// The file with this head and these secrets: its check stands at its end.
#[tactic(auto, unfolding(crate::specs::Files::file_bytes))]
pub fn write_file(alloc: Global, head: &[u8], secrets: &[[u8; 32]]) -> Result<Vec<u8>, AllocError>
    ensures value { IfOk result (λ bytes. bytes.items ≡ file_bytes head.now secrets.now) }
    ensures fits { IfOk result (λ _. AreSecrets secrets.now) }
{
    let mut bytes = write_body(alloc, head, secrets)?;
    let check = check_of(&bytes);
    bytes.extend_from_slice(&check)?;
    Ok(bytes)
}

// The file before its check, with room for that.
fn write_body(alloc: Global, head: &[u8], secrets: &[[u8; 32]]) -> Result<Vec<u8>, AllocError>
    ensures value { IfOk result (λ bytes. bytes.items ≡ file_body head.now secrets.now) }
    ensures fits { IfOk result (λ _. AreSecrets secrets.now) }
{
    let length = secrets
        .as_flattened()
        .len()
        .saturating_add(head.len())
        .saturating_add(CHECK_BYTES);
    let mut bytes = Vec::with_capacity(alloc, length)?;
    bytes.extend_from_slice(head)?;
    for secret in secrets {
        put(&mut bytes, secret)?;
    }
    Ok(bytes)
}

// Adds a secret.
fn put(bytes: &mut Vec<u8>, secret: &[u8; 32]) -> Result<(), AllocError>
    ensures value { OnOk result (bytes.new.items ≡ bytes.old.items ++ secret.now) }
    ensures length { length secret.now ≡ 32 }
{
    bytes.extend_from_slice(secret)
}
