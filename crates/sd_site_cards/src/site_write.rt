ghost use Rattle.std.specs.Prelude.{◌≡◌, [], ◌∷◌, ◌++◌, IfOk, OnOk, string_bytes};
ghost use Rattle.std.specs.Fmt.{decimal};
ghost use Rattle.hex.specs.Hex.{encode_lower};
ghost use Rattle.sd_site_cards.specs.SiteFields.{site_fields_of};
ghost use Rattle.sd_site_cards.specs.Written.{book_text, site_text};

use crate::book_line::BookLine;
use crate::site::Site;
use sd_base::NoMemory;
use std::alloc::{AllocError, Global};
use std::fmt::Write;

impl Site {
    /// The site's file with all thirteen lines [this project, docs/FORMATS.md, Chains of sites].
    pub fn write(&self, alloc: Global, book: &BookLine) -> Result<Vec<u8>, NoMemory>
        ensures { IfOk result (λ bytes. bytes.items ≡ site_text (site_fields_of self.now) book.now) }
    {
        Ok(self.text(alloc, book)?.into_bytes())
    }

    // The file as a text.
    fn text(&self, alloc: Global, book: &BookLine) -> Result<String, AllocError>
        ensures { IfOk result (λ text. string_bytes text ≡ site_text (site_fields_of self.now) book.now) }
    {
        let mut text = String::new(alloc);
        push_number(&mut text, "height ", u32::from(self.height.get()))?;
        push_bytes(alloc, &mut text, "master ", &self.master)?;
        push_bytes(alloc, &mut text, "ca ", &self.ca.to_be_bytes())?;
        push_number(&mut text, "emm ", u32::from(self.emm))?;
        push_number(&mut text, "ecm ", u32::from(self.ecm))?;
        push_number(&mut text, "ecm-every ", self.every)?;
        push_number(&mut text, "crypto-ecms ", self.cryptos)?;
        push_number(&mut text, "period-cryptos ", self.span)?;
        push_number(&mut text, "messages ", u32::from(self.messages))?;
        push_number(&mut text, "first-word ", self.first_word)?;
        push_number(&mut text, "last-word ", self.last_word)?;
        push_number(&mut text, "first-period ", self.first_period)?;
        push_book(alloc, &mut text, book)?;
        Ok(text)
    }
}

// The line of a number, after the text.
fn push_number(text: &mut String, word: &str, number: u32) -> Result<(), AllocError>
    ensures { OnOk result (string_bytes text.new ≡ string_bytes text.old ++ (word.now ++ (decimal number ++ 10 ∷ []))) }
{
    writeln!(text, "{word}{number}")
}

// The line of bytes in hexadecimal digits, after the text.
fn push_bytes(alloc: Global, text: &mut String, word: &str, bytes: &[u8]) -> Result<(), AllocError>
    ensures { OnOk result
        (string_bytes text.new ≡ string_bytes text.old ++ (word.now ++ (encode_lower bytes.now ++ 10 ∷ []))) }
{
    let digits = hex::encode(alloc, bytes)?;
    writeln!(text, "{word}{digits}")
}

// The line of the site's book, after the text.
fn push_book(alloc: Global, text: &mut String, book: &BookLine) -> Result<(), AllocError>
    ensures { OnOk result (string_bytes text.new ≡ string_bytes text.old ++ book_text book.now) }
{
    let digest = hex::encode(alloc, &book.digest)?;
    writeln!(text, "book {} {digest}", book.size)
}
