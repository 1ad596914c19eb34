ghost use Rattle.std.specs.Prelude.{◌≡◌, ◌≤◌, ◌*◌, ◌+◌, ◌/◌, IfOk, length, string_bytes};
ghost use Rattle.serde_json.specs.View.{view};
ghost use Rattle.sd_site_cards.specs.Files.{check_in as check_of_file};
ghost use Rattle.sd_run_books.specs.Fingerprint.{fingerprint_in, whole_key_in};
ghost use Rattle.sd_run_books.specs.Show.{labels_for, shown_data, shown_line};

use sd_command_base::as_line;
use sd_site_cards::{CHECK_BYTES, Card, SECRET_BYTES};
use sd_tree_keys::{Height, check_value};
use serde_json::{Value, json};
use std::alloc::{AllocError, Global};

// The place of the first secret in a card's file.
const SECRETS_AT: usize = 12;

/// The line of a card, of the check at the end of its file and of the key of the whole set in it.
#[tactic(auto, using(crate::proofs::NoFloat::no_float), unfolding(crate::specs::Show::shown_line))]
pub(crate) fn line_of(alloc: Global, card: &Card, bytes: &[u8]) -> Result<String, AllocError>
    requires { 44 ≤ length bytes.now }
    ensures { IfOk result (λ text. string_bytes text
        ≡ shown_line card.now.height card.now.leaf card.now.ca (check_of_file bytes.now) (fingerprint_in bytes.now)) }
{
    let value = value_of(
        alloc,
        card,
        check_in(bytes),
        &check_value(&whole_key(bytes)),
    )?;
    as_line(value.to_string(alloc)?)
}

// What is shown of a card whose file ends with this check, and of the fingerprint of its master.
#[tactic(auto, unfolding(crate::specs::Show::shown_data))]
fn value_of(alloc: Global, card: &Card, check: &[u8], master: &[u8]) -> Result<Value, AllocError>
    ensures { IfOk result (λ value. view value
        ≡ shown_data card.now.height card.now.leaf card.now.ca check.now master.now) }
{
    let check = hex::encode(alloc, check)?;
    let master = hex::encode(alloc, master)?;
    json!(in alloc; {
        "card": "plain",
        "check": check,
        "height": card.height().get(),
        "labels": label_count(card.height()),
        "leaf": card.leaf().get(),
        "master": master,
        "system": card.ca()
    })
}

// The number of labels in a card at this height. The key of the whole set isn't one of them.
fn label_count(h: Height) -> u32
    ensures { result ≡ labels_for h }
{
    let height = u32::from(h.get());
    height * (height + 1) / 2
}

// The check at a file's end.
#[tactic(auto, unfolding(sd_site_cards::specs::Files::check_in))]
fn check_in(bytes: &[u8]) -> &[u8]
    ensures { result.now ≡ check_of_file bytes.now }
{
    &bytes[bytes.len().saturating_sub(CHECK_BYTES)..]
}

// The key of the whole set in a card's file.
fn whole_key(bytes: &[u8]) -> [u8; 32]
    requires { 44 ≤ length bytes.now }
    ensures { result ≡ whole_key_in bytes.now }
{
    let mut key = [0; SECRET_BYTES];
    key.copy_from_slice(&bytes[SECRETS_AT..SECRETS_AT + SECRET_BYTES]);
    key
}
